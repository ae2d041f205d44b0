//! An operation done inside the process's own heap.
ghost use Rattle.std.specs.Prelude.{◌≡◌, ◌<◌, ◌-◌, ◌^◌, ◌==◌, ◌+◌, ◌&&◌, not, nat_le, IfNone, IfSome, IsFalse, IsTrue, Option, Some, None, is_some, length, option_map, if◌then◌else◌};
ghost use Rattle.k_types.specs.declared.names.CellPhase.TheVariants.{Idle};
ghost use Rattle.k_types.specs.Cells.{BookPart, Cell, CellPart};
ghost use Rattle.k_types.specs.Local.{is_own};
ghost use Rattle.k_types.specs.Names.{name_of};
ghost use Rattle.k_types.specs.Replies.{is_ref, number_in, reference};
ghost use Rattle.k_types.specs.State.{Content, Holds, Refers, field_kind};
ghost use Rattle.k_types.specs.declared.event.Reply.TheVariants.{Done, Loaded};
ghost use Rattle.k_types.specs.declared.names.Name.{Name as Named};
ghost use Rattle.k_laws.specs.PartUpdates.{done_in, held_in};
ghost use Rattle.k_types.specs.Trace.{Trace};
ghost use Rattle.k_agree.specs.Marking.{idle_part};
ghost use Rattle.k_laws.specs.CellAfter.{unless_refused};
ghost use Rattle.k_laws.specs.Locals.{is_local_in};
ghost use Rattle.k_space.specs.Objects.{content_of};
ghost use Rattle.k_commit.specs.k_heap.Heaps.{with_register_in};
ghost use Rattle.k_commit.specs.k_heap.Looks.{field_among, field_count_among};
ghost use Rattle.k_process.specs.Locals.{HasRegisters, IsChanged, IsMachines, LeavesTheBook, ShowOwn, after_local, field_answer, get_answer, int_answer, is_refusal, load_answer, loaded_through, local_answer, local_change, number_found, put_answer, ref_answer, store_answer, written_through};

use k_commit::HeapCell;
use k_space::Stored;
use k_types::{Event, Fault, Field, Link, Name, Op, Pid, Reg, Reply};

/// Does the operation of the process where it needs that heap alone: its event then is the newest that the journal lacks, and
/// reply and cell are those of the machine, and the machine's event leaves the book's part. `None` changes nothing, and comes exactly
/// where the operation is not local. Constant time, and no memory.
#[inline(always)]
pub fn local(cell: &mut HeapCell, op: &Op) -> Option<Reply>
    requires registers { HasRegisters op.now }
    requires idle { cell.old.value.collection ≡ Idle }
    requires room { length cell.old.value.tail < cell.old.tail_room }
    requires count { done_in cell.old.value.process < 2 ^ 64 - 1 }
    ensures answer { result ≡ local_answer cell.old.value cell.old.pid.0 op.now }
    ensures told { is_some result ≡ is_local_in (idle_part cell.old.value) cell.old.pid.0 op.now }
    ensures none { IfNone result (cell.new ≡ cell.old) }
    ensures machines { IfSome result (λ said. (trace : Trace) (book : BookPart) (parts : Cell → CellPart) → ShowOwn trace book parts cell.old.pid cell.old.value →
        IsMachines trace book parts cell.old.pid cell.old.value cell.new.value op.now said) }
    ensures book { IfSome result (λ said. LeavesTheBook cell.old.pid cell.old.value op.now said) }
    ensures some { IfSome result (λ said. cell.new ≡ record cell.old { value = after_local cell.old.pid op.now said cell.old.value }) }
{
    let reply = apply(cell, op)?;
    cell.count_done();
    let pid = cell.pid();
    cell.push_tail(Event::Done {
        pid,
        op: *op,
        reply,
    });
    Some(reply)
}

/// The name of the object to which the reference leads.
fn named(value: Option<Link>) -> Option<Name>
    ensures { result ≡ option_map name_of value }
{
    match value {
        Some(link) => Some(link.name()),
        None => None,
    }
}

/// Whether the reference is null or leads to an object of the process's own segment.
fn is_own(pid: Pid, value: Option<Link>) -> bool
    ensures { result ≡ is_own pid.0 (option_map name_of value) }
{
    match value {
        Some(link) => lies_in(pid, link),
        None => true,
    }
}

/// Whether the object is of the process's own segment.
fn lies_in(pid: Pid, at: Link) -> bool
    ensures { result ≡ (at.seg.0 == pid.0 + 1) }
{
    u64::from(at.seg.0) == u64::from(pid.0) + 1
}

fn is_ref(stored: Stored) -> bool
    ensures { result ≡ is_ref (content_of stored) }
{
    match stored {
        Stored::Null => true,
        Stored::Refers(_) => true,
        Stored::Holds(_) => false,
    }
}

fn reference(stored: Stored) -> Option<Link>
    ensures { option_map name_of result ≡ reference (content_of stored) }
{
    match stored {
        Stored::Null => None,
        Stored::Refers(target) => Some(target.link()),
        Stored::Holds(_) => None,
    }
}

fn number_in(stored: Stored) -> u64
    ensures { result ≡ number_in (content_of stored) }
{
    match stored {
        Stored::Null => 0,
        Stored::Refers(_) => 0,
        Stored::Holds(number) => number,
    }
}

/// What the look-up of the field finds, where the object is of the process's own segment.
#[inline(always)]
fn own_field(cell: &HeapCell, at: Link, field: u32) -> Option<Stored>
    ensures own { is_some result ≡ (at.seg.0 == cell.now.pid.0 + 1) }
    ensures found { IfSome result (λ found. content_of found ≡ field_among cell.now.value.objects (name_of at) field) }
{
    if !lies_in(cell.pid(), at) {
        return None;
    }
    Some(cell.field(at, field))
}

/// Whether the object has the field, where its look-up finds that. Every reference stands in a field that is there, and every number
/// but 0: so a 0 alone asks for the number of fields.
#[inline(always)]
fn is_there(cell: &HeapCell, at: Link, field: u32, found: Stored) -> bool
    requires { content_of found ≡ field_among cell.now.value.objects (name_of at) field }
    ensures { result ≡ not (nat_le (field_count_among cell.now.value.objects (name_of at)) field) }
{
    match found {
        Stored::Null => true,
        Stored::Refers(_) => true,
        Stored::Holds(number) => number != 0 || field < cell.field_count(at),
    }
}

/// The answer to an access to the field of the object, which is the process's own, and whose look-up finds that.
#[inline(always)]
fn field_answer(
    cell: &HeapCell,
    at: Link,
    field: u32,
    found: Stored,
    of_kind: bool,
    answer: Option<Reply>,
) -> Option<Reply>
    requires own { IsTrue (at.seg.0 == cell.now.pid.0 + 1) }
    requires found { content_of found ≡ field_among cell.now.value.objects (name_of at) field }
    ensures { result ≡ field_answer cell.now.value cell.now.pid.0 (name_of at) field of_kind answer }
{
    if !is_there(cell, at, field, found) {
        return Some(Reply::Refused(Fault::NoField));
    }
    if of_kind {
        answer
    } else {
        Some(Reply::Refused(Fault::WrongKind))
    }
}

/// The answer that the reference was loaded, where the test holds.
fn loaded_if(test: bool, value: Option<Name>) -> Option<Reply>
    ensures { result ≡ (if test then Some (Loaded value) else None) }
{
    if test {
        Some(Reply::Loaded(value))
    } else {
        None
    }
}

/// The answer to a load from the field of the object, which is the process's own, and whose look-up finds that, where the result
/// register held `old`.
#[inline(always)]
fn load_answer(
    cell: &HeapCell,
    at: Link,
    field: u32,
    found: Stored,
    old: Option<Link>,
) -> Option<Reply>
    requires own { IsTrue (at.seg.0 == cell.now.pid.0 + 1) }
    requires found { content_of found ≡ field_among cell.now.value.objects (name_of at) field }
    ensures { result ≡ load_answer cell.now.value cell.now.pid.0 (Some (name_of at)) field (option_map name_of old) }
{
    let value = reference(found);
    let both = is_own(cell.pid(), value) && is_own(cell.pid(), old);
    let answer = loaded_if(both, named(value));
    field_answer(cell, at, field, found, is_ref(found), answer)
}

/// Whether the reply is a fault.
fn is_refusal(reply: Reply) -> bool
    ensures { result ≡ is_refusal reply }
{
    match reply {
        Reply::Done => false,
        Reply::Made(_) => false,
        Reply::Loaded(_) => false,
        Reply::Value(_) => false,
        Reply::Refused(_) => true,
    }
}

/// The answer to an access to a field that holds that, if it is there and a reference, where the access is answered so; else the fault.
#[inline(always)]
fn ref_answer(found: Option<Stored>, answer: Option<Reply>) -> Option<Reply>
    ensures { result ≡ ref_answer (option_map content_of found) answer }
{
    match found {
        None => Some(Reply::Refused(Fault::NoField)),
        Some(Stored::Holds(_)) => Some(Reply::Refused(Fault::WrongKind)),
        Some(Stored::Null) => answer,
        Some(Stored::Refers(_)) => answer,
    }
}

/// The same of an integer.
#[inline(always)]
fn int_answer(found: Option<Stored>, answer: Option<Reply>) -> Option<Reply>
    ensures { result ≡ int_answer (option_map content_of found) answer }
{
    match found {
        None => Some(Reply::Refused(Fault::NoField)),
        Some(Stored::Holds(_)) => answer,
        Some(Stored::Null) => Some(Reply::Refused(Fault::WrongKind)),
        Some(Stored::Refers(_)) => Some(Reply::Refused(Fault::WrongKind)),
    }
}

/// The answer to a store into a field of that kind, where the reference may be stored; none where there is no such field.
#[inline(always)]
fn after_store(kind: Option<Field>) -> Option<Reply>
    ensures { (found : Option Content) → kind ≡ option_map field_kind found → result ≡ ref_answer found (Some Done) }
{
    match kind {
        None => Some(Reply::Refused(Fault::NoField)),
        Some(Field::Ref) => Some(Reply::Done),
        Some(Field::Int) => Some(Reply::Refused(Fault::WrongKind)),
    }
}

/// The answer to a put.
#[inline(always)]
fn after_put(kind: Option<Field>) -> Option<Reply>
    ensures { (found : Option Content) → kind ≡ option_map field_kind found → result ≡ int_answer found (Some Done) }
{
    match kind {
        None => Some(Reply::Refused(Fault::NoField)),
        Some(Field::Ref) => Some(Reply::Refused(Fault::WrongKind)),
        Some(Field::Int) => Some(Reply::Done),
    }
}

/// Stores what the register holds, and answers; `None` where that is not local.
#[inline(always)]
fn store(cell: &mut HeapCell, base: Reg, field: u32, value: Reg) -> Option<Reply>
    requires registers { (base.0 < 16) × (value.0 < 16) }
    requires idle { cell.old.value.collection ≡ Idle }
    ensures answer { result ≡ store_answer cell.old.value cell.old.pid.0 (held_in cell.old.value.process base.0) field (held_in cell.old.value.process value.0) }
    ensures none { IfNone result (cell.new ≡ cell.old) }
    ensures some { IfSome result (λ said. IsChanged cell.old cell.new said (written_through (held_in cell.old.value.process base.0) field (Refers (held_in cell.old.value.process value.0)) cell.old.value)) }
{
    let Some(at) = cell.reg(base) else {
        return Some(Reply::Refused(Fault::Null));
    };
    if !lies_in(cell.pid(), at) {
        return None;
    }
    let stored = cell.reg(value);
    if !is_own(cell.pid(), stored) {
        return ref_answer(cell.found(at, field), None);
    }
    after_store(cell.store(at, field, stored))
}

/// Loads into the register, and answers; `None` where that is not local.
#[inline(always)]
fn load(cell: &mut HeapCell, reg: Reg, base: Reg, field: u32) -> Option<Reply>
    requires registers { (reg.0 < 16) × (base.0 < 16) }
    ensures answer { result ≡ load_answer cell.old.value cell.old.pid.0 (held_in cell.old.value.process base.0) field (held_in cell.old.value.process reg.0) }
    ensures none { IfNone result (cell.new ≡ cell.old) }
    ensures some { IfSome result (λ said. IsChanged cell.old cell.new said (with_register_in reg.0 (loaded_through cell.old.value (held_in cell.old.value.process base.0) field) cell.old.value)) }
{
    let Some(at) = cell.reg(base) else {
        return Some(Reply::Refused(Fault::Null));
    };
    let stored = own_field(cell, at, field)?;
    let reply = load_answer(cell, at, field, stored, cell.reg(reg))?;
    if !is_refusal(reply) {
        cell.set_reg(reg, reference(stored));
    }
    Some(reply)
}

/// Puts the number, and answers; `None` where that is not local.
#[inline(always)]
fn put(cell: &mut HeapCell, base: Reg, field: u32, number: u64) -> Option<Reply>
    requires register { base.0 < 16 }
    requires idle { cell.old.value.collection ≡ Idle }
    ensures answer { result ≡ put_answer cell.old.value cell.old.pid.0 (held_in cell.old.value.process base.0) field }
    ensures none { IfNone result (cell.new ≡ cell.old) }
    ensures some { IfSome result (λ said. IsChanged cell.old cell.new said (written_through (held_in cell.old.value.process base.0) field (Holds number) cell.old.value)) }
{
    let Some(at) = cell.reg(base) else {
        return Some(Reply::Refused(Fault::Null));
    };
    if !lies_in(cell.pid(), at) {
        return None;
    }
    after_put(cell.put(at, field, number))
}

/// The number that a field holds; 0 where there is no such field, or it is a reference.
#[inline(always)]
fn number_found(found: Option<Stored>) -> u64
    ensures { result ≡ number_found (option_map content_of found) }
{
    match found {
        Some(stored) => number_in(stored),
        None => 0,
    }
}

/// Reads the number, and answers; `None` where that is not local.
#[inline(always)]
fn get(cell: &HeapCell, base: Reg, field: u32) -> Option<Reply>
    requires register { base.0 < 16 }
    ensures { result ≡ get_answer cell.now.value cell.now.pid.0 (held_in cell.now.value.process base.0) field }
{
    let Some(at) = cell.reg(base) else {
        return Some(Reply::Refused(Fault::Null));
    };
    if !lies_in(cell.pid(), at) {
        return None;
    }
    let found = cell.found(at, field);
    int_answer(found, Some(Reply::Value(number_found(found))))
}

/// Has the register hold the reference, and answers; `None` where that is not local, since it held or is to hold a foreign one.
#[inline(always)]
fn set(cell: &mut HeapCell, reg: Reg, value: Option<Link>) -> Option<Reply>
    requires register { reg.0 < 16 }
    ensures answer { result ≡ (if is_own cell.old.pid.0 (held_in cell.old.value.process reg.0) && is_own cell.old.pid.0 (option_map name_of value) then Some Done else None) }
    ensures none { IfNone result (cell.new ≡ cell.old) }
    ensures some { IfSome result (λ said. IsChanged cell.old cell.new said (with_register_in reg.0 (option_map name_of value) cell.old.value)) }
{
    let pid = cell.pid();
    if !is_own(pid, cell.reg(reg)) || !is_own(pid, value) {
        return None;
    }
    cell.set_reg(reg, value);
    Some(Reply::Done)
}

/// Answers the operation, and changes what it changes where it is not refused. `None` changes nothing, and comes where it is not local.
#[tactic(auto, unfolding(crate::specs::Locals::local_answer, crate::specs::Locals::local_change))]
#[inline(always)]
fn apply(cell: &mut HeapCell, op: &Op) -> Option<Reply>
    requires registers { HasRegisters op.now }
    requires idle { cell.old.value.collection ≡ Idle }
    ensures answer { result ≡ local_answer cell.old.value cell.old.pid.0 op.now }
    ensures none { IfNone result (cell.new ≡ cell.old) }
    ensures some { IfSome result (λ said. IsChanged cell.old cell.new said (local_change cell.old.value op.now)) }
{
    match *op {
        Op::Store { base, field, value } => store(cell, base, field, value),
        Op::Load { reg, base, field } => load(cell, reg, base, field),
        Op::Move { reg, from } => {
            let value = cell.reg(from);
            set(cell, reg, value)
        }
        Op::Clear { reg } => set(cell, reg, None),
        Op::Put {
            base,
            field,
            number,
        } => put(cell, base, field, number),
        Op::Get { base, field } => get(cell, base, field),
        Op::New { reg: _, ty: _ } => None,
        Op::KNew { reg: _, ty: _ } => None,
        Op::SNew {
            reg: _,
            shared: _,
            ty: _,
        } => None,
        Op::Dir { reg: _ } => None,
        Op::Collect => None,
        Op::KCollect => None,
        Op::Share { shared: _ } => None,
        Op::Freeze { shared: _, root: _ } => None,
        Op::Attach { reg: _, shared: _ } => None,
        Op::Exit => None,
        Op::Kill { target: _ } => None,
        Op::Resize { limit: _, max: _ } => None,
    }
}
