//! Room for steps to come.
ghost use Rattle.std.specs.Prelude.{ℕ, ◌<◌, ◌+◌, ◌-◌, ◌^◌};
ghost use Rattle.k_state.specs.Rooms.{HasRoom};
ghost use Rattle.k_types.specs.Effects.{step};
ghost use Rattle.k_types.specs.State.{State, opening};
ghost use Rattle.k_types.specs.Trace.{Trace};
ghost use Rattle.k_types.specs.declared.event.Event.{Event};

/// The law that an event takes the room of one step, whatever it is.
#[tactic(auto, using(crate::proofs::RoomLaws::room_after_step))]
pub fn room_is_left()
    ensures { (n : ℕ) (trace : Trace) (st : State) (event : Event) → HasRoom (1 + n) st → HasRoom n (step trace st event) }
{}

/// The law that a trace begins with room for almost as many steps as there are numbers of 32 bits.
#[tactic(auto, using(crate::proofs::RoomLaws::room_at_opening))]
pub fn room_is_ample_at_first()
    ensures { (n : ℕ) (trace : Trace) → n < 2 ^ 32 - 1 → HasRoom n (opening trace) }
{}
