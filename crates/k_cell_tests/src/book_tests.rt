//! A book over a small setup: one limit, two processes and one shared heap.
ghost use Rattle.std.specs.Prelude.{◌≡◌, ◌∷◌, [], None, true, IfOk, length};

use k_book::Book;
use k_tie::Tie;
use k_types::{
    Event, Heap, LimitId, LimitRow, NoMemory, Phase, Pid, Seg, Setup, SharedId, TypeTable,
};
use std::alloc::Global;
use std::test::Fail;

pub(crate) fn small_setup(alloc: Global) -> Result<Setup, NoMemory>
    ensures rows { IfOk result (λ s. s.limits.items ≡ record { parent = None; hard = true; max = 100 } ∷ []) }
    ensures procs { IfOk result (λ s. length s.procs.items ≡ 2) }
    ensures shared { IfOk result (λ s. s.shared ≡ 1) }
{
    let root = LimitRow {
        parent: None,
        hard: true,
        max: 100,
    };
    Ok(Setup {
        version: 1,
        ceiling: 50,
        dir_fields: 0,
        types: TypeTable::make(alloc, &[])?,
        limits: vec![in alloc; root]?,
        procs: vec![in alloc; LimitId(0), LimitId(0)]?,
        shared: 1,
    })
}

// A value that another thread may have.
fn may_be_handed_on<T: Send>(_value: &T) {}

// What is charged is in use, and a heap that is made without a sharer is an orphan.
#[test]
fn a_book_is_charged_and_finds_an_orphan(rt: HostRuntime) -> Result<(), Fail> {
    let setup = small_setup(rt.alloc())?;
    let (tie, seat, _notes) = Tie::make(rt.alloc(), 4)?;
    let mut book = Book::make(rt.alloc(), &setup, 2, 2, 2, tie, seat)?;
    assert_eq!(rt;
        (book.procs(), book.shared_heaps(), book.ceiling()),
        (2, 1, 50)
    );
    assert_eq!(rt; book.living(), 2);
    assert!(rt; book.first_orphan().is_none());
    book.set_phase(SharedId(0), Phase::Populating(Pid(1)));
    assert_eq!(rt; book.first_orphan(), Some(SharedId(0)));
    assert_eq!(rt; book.charge(LimitId(0), 60), Ok(()));
    assert_eq!(rt; book.charge(LimitId(0), 60), Err(LimitId(0)));
    assert_eq!(rt; book.use_of(LimitId(0)), 60);
    assert_eq!(rt; book.owner(Seg(2)), Heap::User(Pid(1)));
    Ok(())
}

// An event comes back from the place at which it was appended.
#[test]
fn events_come_back(rt: HostRuntime) -> Result<(), Fail> {
    let setup = small_setup(rt.alloc())?;
    let (tie, seat, _notes) = Tie::make(rt.alloc(), 4)?;
    let mut book = Book::make(rt.alloc(), &setup, 2, 2, 2, tie, seat)?;
    may_be_handed_on(&book);
    book.append(Event::Closing);
    book.close();
    assert_eq!(rt; book.len(), 1);
    assert_eq!(rt; *book.event(0), Event::Closing);
    assert!(rt; book.is_closed());
    Ok(())
}
