//! A local operation depends only on its process's cell, and so does a tail of them.
ghost use Rattle.std.specs.Prelude.{IsFalse, IsTrue, List, ◌++◌, ◌<◌, ◌≡◌, ℕ};
ghost use Rattle.k_laws.specs.Tails.{TailFollows};
ghost use Rattle.k_types.specs.Cells.{book_part, part, touches, Cell};
ghost use Rattle.k_types.specs.Effects.{after_operation};
ghost use Rattle.k_types.specs.Local.{AreLocal, is_local};
ghost use Rattle.k_laws.specs.Alike.{Alike};
ghost use Rattle.k_types.specs.Names.{among, heap_eq};
ghost use Rattle.k_types.specs.Owners.{user};
ghost use Rattle.k_types.specs.Replies.{reply_to};
ghost use Rattle.k_types.specs.State.{State};
ghost use Rattle.k_types.specs.Steps.{IsLegalHistory, IsPossible, state_after, touch_count};
ghost use Rattle.k_types.specs.Trace.{Trace, process_count};
ghost use Rattle.k_types.specs.declared.event.Event.{Event};
ghost use Rattle.k_types.specs.declared.event.Event.TheVariants.{Done};
ghost use Rattle.k_types.specs.declared.event.Reply.{Reply};
ghost use Rattle.k_types.specs.declared.names.Pid.{Pid};
ghost use Rattle.k_types.specs.declared.op.Op.{Op};

/// A local operation goes by its process's cell alone: in two states where that cell's part is the same it is local in both,
/// is answered the same, is possible in both and leaves the same part. It leaves the book's part, and touches no other cell.
pub fn local_operations_go_by_their_cell()
    ensures local { (trace : Trace) (p : ℕ) (st su : State) (op : Op) → Alike trace p st su → IsTrue (is_local st p op) →
        IsTrue (is_local su p op) }
    ensures replies { (trace : Trace) (p : ℕ) (st su : State) (op : Op) → Alike trace p st su → IsTrue (is_local st p op) →
        reply_to trace st p op ≡ reply_to trace su p op }
    ensures possible { (trace : Trace) (pid : Pid) (st su : State) (op : Op) (said : Reply) → Alike trace pid.0 st su →
        IsTrue (is_local st pid.0 op) → IsPossible trace st (Done pid op said) → IsPossible trace su (Done pid op said) }
    ensures parts { (trace : Trace) (p : ℕ) (st su : State) (op : Op) → Alike trace p st su → IsTrue (is_local st p op) →
        part trace (after_operation trace p op st) (user p) ≡ part trace (after_operation trace p op su) (user p) }
    ensures book { (trace : Trace) (p : ℕ) (st : State) (op : Op) → p < process_count trace → IsFalse (among p st.ended) →
        IsTrue (is_local st p op) → book_part trace (after_operation trace p op st) ≡ book_part trace st }
    ensures touched { (trace : Trace) (st : State) (pid : Pid) (op : Op) (said : Reply) (c : Cell) → pid.0 < process_count trace →
        IsFalse (among pid.0 st.ended) → IsTrue (is_local st pid.0 op) →
        touches trace st (Done pid op said) c ≡ heap_eq (user pid.0) c }
{}

/// The law on tails: what a process does inside its heap after some events it does in the same way after more events that do
/// not touch its heap's cell, which is seen by equal counts of touches. So a tail may be published later than it was done.
pub fn tails_follow()
    ensures { (trace : Trace) (p : ℕ) (known rest tail : List Event) →
        IsLegalHistory trace (known ++ rest) → IsLegalHistory trace (known ++ tail) →
        AreLocal trace p (state_after trace known) tail →
        touch_count trace (user p) (known ++ rest) ≡ touch_count trace (user p) known →
        TailFollows trace p known rest tail }
{}
