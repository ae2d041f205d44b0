//! The law that joins local operations to the machine's.
ghost use Rattle.std.specs.Prelude.{◌≡◌, ℕ, is_some, Some};
ghost use Rattle.k_types.specs.declared.event.Reply.{Reply};
ghost use Rattle.k_types.specs.declared.names.Pid.{Pid};
ghost use Rattle.k_types.specs.declared.op.Op.{Op};
ghost use Rattle.k_types.specs.Agree.{CellValue};
ghost use Rattle.k_types.specs.Cells.{BookPart, Cell, CellPart};
ghost use Rattle.k_types.specs.Trace.{Trace};
ghost use Rattle.k_agree.specs.Marking.{idle_part};
ghost use Rattle.k_laws.specs.Locals.{is_local_in};
ghost use Rattle.k_process.specs.Locals.{IsMachines, ShowOwn, after_local, local_answer};

/// The cell of a process answers just the operations that are local, by its part alone. The reply is what the parts of all cells
/// and of the book give, and the cell has the part that they give after the event.
pub fn local_operations_are_the_machines()
    ensures told { (v : CellValue) (p : ℕ) (op : Op) → is_some (local_answer v p op) ≡ is_local_in (idle_part v) p op }
    ensures machines { (trace : Trace) (book : BookPart) (parts : Cell → CellPart) (pid : Pid) (v : CellValue) (op : Op) (said : Reply) →
        ShowOwn trace book parts pid v → local_answer v pid.0 op ≡ Some said → IsMachines trace book parts pid v (after_local pid op said v) op said }
{}
