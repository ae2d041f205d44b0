//! The numbers of a book.
ghost use Rattle.std.specs.Prelude.{◌≡◌, ◌<◌, length};
ghost use Rattle.k_types.specs.Trace.{Trace};
ghost use Rattle.k_book.specs.Books.{BookRecord};
ghost use Rattle.k_commit.specs.Standing.{BookStands};
ghost use Rattle.k_watch.specs.Numbers.{numbers_after, numbers_of};

use crate::sample::Sample;
use k_book::Book;
use k_types::LimitId;

/// The numbers of the book.
pub(crate) fn numbers(book: &Book) -> Sample
    requires { 0 < length book.now.rows }
    ensures { result ≡ numbers_of book.now }
{
    Sample {
        events: book.len(),
        root_use: book.use_of(LimitId(0)),
        living: book.living(),
    }
}

/// The numbers of a book that agrees with its journal are those of the machine after it.
pub fn books_tell_the_numbers()
    ensures { (trace : Trace) (b : BookRecord) → BookStands trace b → numbers_of b ≡ numbers_after trace b.journal.list }
{}
