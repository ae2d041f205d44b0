//! The pen of a book, and a watcher on another thread.
ghost use Rattle.std.specs.Prelude.{◌≡◌, ◌+◌, ◌<◌, ◌≤◌, [], IfOk, length};
ghost use Rattle.k_watch.specs.Samples.{newest_of};

use crate::book_tests::small_setup;
use k_book::Book;
use k_tie::Tie;
use k_types::{Event, LimitId};
use k_watch::{Sample, WatchPen, Watcher, make};
use std::alloc::Global;
use std::sync::Wait;
use std::test::Fail;
use std::thread;

/// The most bytes that are in use in the tests.
const MOST_USE: u64 = 100;

/// A book with room for so many events.
fn small_book(alloc: Global, events: u32) -> Result<Book, Fail>
    ensures empty { IfOk result (λ b. b.journal.list ≡ []) }
    ensures rows { IfOk result (λ b. length b.rows ≡ 1) }
    ensures room { IfOk result (λ b. b.event_room ≡ events) }
{
    let setup = small_setup(alloc)?;
    let (tie, seat, _notes) = Tie::make(alloc, 4)?;
    let book = Book::make(alloc, &setup, 2, u64::from(events), events, tie, seat)?;
    Ok(book)
}

/// One byte more is in use, up to the most, and there is one event more.
fn grow(book: &mut Book)
    requires rows { length book.old.rows ≡ 1 }
    requires room { length book.old.journal.list < book.old.event_room }
    ensures rows { length book.new.rows ≡ 1 }
    ensures same_room { book.new.event_room ≡ book.old.event_room }
    ensures events { length book.new.journal.list ≡ length book.old.journal.list + 1 }
{
    let _full = book.charge(LimitId(0), 1).is_err();
    book.append(Event::Closing);
}

/// Has the book grow so many times, and publishes its numbers each time.
fn publish_all<R: Wait>(rt: &R, book: &mut Book, pen: &mut WatchPen, count: u32)
    requires rows { length book.old.rows ≡ 1 }
    requires room { length book.old.journal.list + count ≤ book.old.event_room }
    requires newest { newest_of pen.old.samples ≤ length book.old.journal.list }
{
    for _ in 0..count {
        grow(book);
        pen.publish(rt, book);
    }
}

/// Whether these are the numbers of a book that has grown so many times.
fn is_published(sample: &Sample) -> bool {
    sample.root_use == sample.events.min(MOST_USE) && sample.living == 2
}

/// Takes so many samples, and counts those that no book here has, or that have fewer events than the one before.
fn count_wrong<R: Wait>(rt: &R, watcher: &mut Watcher, count: u32) -> u32 {
    let mut wrong: u32 = 0;
    let mut before = 0;
    for _ in 0..count {
        let sample = watcher.sample(rt);
        if sample.events < before || !is_published(&sample) {
            wrong = wrong.saturating_add(1);
        }
        before = sample.events;
    }
    wrong
}

#[test]
fn a_watcher_sees_what_was_published_last(rt: HostRuntime) -> Result<(), Fail> {
    let mut book = small_book(rt.alloc(), 2)?;
    let (mut pen, mut watcher) = make(&rt, rt.alloc(), &book)?;
    let first = watcher.sample(&rt);
    assert_eq!(rt; (first.events, first.root_use, first.living), (0, 0, 2));
    grow(&mut book);
    assert_eq!(rt; watcher.sample(&rt).events, 0);
    pen.publish(&rt, &book);
    let next = watcher.sample(&rt);
    assert_eq!(rt; (next.events, next.root_use, next.living), (1, 1, 2));
    let mut told = pen.tell(&rt, watcher);
    assert_eq!(rt; told.sample(&rt).events, 1);
    Ok(())
}

const SAMPLES: u32 = 20_000;

#[test]
fn samples_rise_while_another_thread_publishes(rt: HostRuntime) -> Result<(), Fail> {
    let mut book = small_book(rt.alloc(), SAMPLES)?;
    let (mut pen, mut watcher) = make(&rt, rt.alloc(), &book)?;
    let ((), wrong) = thread::join(
        &rt,
        || publish_all(&rt, &mut book, &mut pen, SAMPLES),
        || count_wrong(&rt, &mut watcher, SAMPLES),
    );
    assert_eq!(rt; wrong, 0);
    assert_eq!(rt; watcher.sample(&rt).events, u64::from(SAMPLES));
    Ok(())
}
