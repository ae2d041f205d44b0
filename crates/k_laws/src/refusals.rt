//! Which fault an operation is refused with.
ghost use Rattle.std.specs.Prelude.{IsFalse, IsTrue, Some, ◌+◌, ◌<◌, ◌≡◌, ◌⊎◌, ℕ};
ghost use Rattle.k_laws.specs.Refusals.{is_fault_of_store};
ghost use Rattle.k_types.specs.Limits.{full_limit};
ghost use Rattle.k_types.specs.Owners.{bytes_of, phase_of};
ghost use Rattle.k_types.specs.Replies.{is_populating, reply_to};
ghost use Rattle.k_types.specs.State.{State};
ghost use Rattle.k_types.specs.Trace.{Trace, limit_of, size_of_type};
ghost use Rattle.k_types.specs.declared.event.Fault.{Fault};
ghost use Rattle.k_types.specs.declared.event.Fault.TheVariants.{KernelFull, LimitFull, NotPopulating};
ghost use Rattle.k_types.specs.declared.event.Reply.TheVariants.{Refused};
ghost use Rattle.k_types.specs.declared.names.Heap.TheVariants.{Kernel};
ghost use Rattle.k_types.specs.declared.names.LimitId.{LimitId};
ghost use Rattle.k_types.specs.declared.names.Reg.{Reg};
ghost use Rattle.k_types.specs.declared.names.SharedId.{SharedId};
ghost use Rattle.k_types.specs.declared.names.TypeId.{TypeId};
ghost use Rattle.k_types.specs.declared.op.Op.TheVariants.{KNew, New, SNew, Store};

/// Nothing is refused for a reason that its operation does not name. A store is refused only for its base, its field, a frozen heap or the barrier, so never for memory, a
/// limit or the number of exit items. An allocation is refused only where a limit on its path is full (that limit is named),
/// in the kernel only by the ceiling, and in a shared heap also where the process does not populate it.
///
/// Source: KaffeOS paper, on write barriers and segmentation violations.
pub fn no_hidden_refusals()
    ensures store { (trace : Trace) (st : State) (p : ℕ) (base value : Reg) (i : ℕ) (fault : Fault) →
        reply_to trace st p (Store base i value) ≡ Refused fault → IsTrue (is_fault_of_store fault) }
    ensures new { (trace : Trace) (st : State) (p : ℕ) (r : Reg) (ty : TypeId) (fault : Fault) →
        reply_to trace st p (New r ty) ≡ Refused fault →
        (m : LimitId) × (full_limit trace st (limit_of trace p) (size_of_type trace ty) ≡ Some m.0) × (fault ≡ LimitFull m) }
    ensures in_kernel { (trace : Trace) (st : State) (p : ℕ) (r : Reg) (ty : TypeId) (fault : Fault) →
        reply_to trace st p (KNew r ty) ≡ Refused fault →
        (trace.ceiling < bytes_of trace st Kernel + size_of_type trace ty) × (fault ≡ KernelFull) }
    ensures in_shared { (trace : Trace) (st : State) (p : ℕ) (r : Reg) (s : SharedId) (ty : TypeId) (fault : Fault) →
        reply_to trace st p (SNew r s ty) ≡ Refused fault →
        (IsFalse (is_populating (phase_of st.phases s.0) p) × (fault ≡ NotPopulating s))
        ⊎ ((m : LimitId) × (full_limit trace st (limit_of trace p) (size_of_type trace ty) ≡ Some m.0) × (fault ≡ LimitFull m)) }
{}
