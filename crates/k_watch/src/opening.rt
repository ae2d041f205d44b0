//! How a cell is made, with its pen and its first watcher.
ghost use Rattle.std.specs.Prelude.{◌≡◌, ◌<◌, [], ◌∷◌, IfOk, length};
ghost use Rattle.k_watch.specs.Numbers.{numbers_of};
ghost use Rattle.k_watch.specs.Values.{new_watcher};

use crate::cell::{Cell, give_watcher, publish_first};
use crate::counting::numbers;
use crate::pen::WatchPen;
use crate::sample::Sample;
use crate::watcher::Watcher;
use k_book::Book;
use k_types::NoMemory;
use std::alloc::Global;
use std::sync::{Arc, Wait};

/// A cell whose pen has published the numbers of the book, and a watcher of it that has taken no sample.
pub fn make<R: Wait>(rt: &R, alloc: Global, book: &Book) -> Result<(WatchPen, Watcher), NoMemory>
    requires empty { book.now.journal.list ≡ [] }
    requires root { 0 < length book.now.rows }
    ensures pen { IfOk result (λ made. made.0.samples ≡ numbers_of book.now ∷ []) }
    ensures watcher { IfOk result (λ made. made.1 ≡ new_watcher made.0.cell 0) }
{
    opened(rt, alloc, numbers(book))
}

/// A cell with this sample, its pen, and a watcher of it.
fn opened<R: Wait>(rt: &R, alloc: Global, sample: Sample) -> Result<(WatchPen, Watcher), NoMemory>
    ensures pen { IfOk result (λ made. made.0.samples ≡ sample ∷ []) }
    ensures watcher { IfOk result (λ made. made.1 ≡ new_watcher made.0.cell sample.events) }
{
    let (cell, mut pass) = Cell::ruled(alloc, [0; 3])?;
    publish_first(rt, &cell, &mut pass, sample.to_words());
    let watching = give_watcher(&cell, &mut pass);
    let cell = Arc::new(alloc, cell)?;
    let theirs = Arc::try_clone(&cell)?;
    let pen = WatchPen { cell, pass };
    let watcher = Watcher {
        cell: theirs,
        pass: watching,
    };
    Ok((pen, watcher))
}
