//! The words of a command line.
ghost use Rattle.std.specs.Prelude.{◌≡◌, IfOk, map, string_bytes};
ghost use Rattle.k_status.specs.Arguments.{words_of};

use k_io::{NoMemory, push};
use std::alloc::Global;
use std::env::Args;
use std::io;

/// The words after the program's name; none where an argument is not UTF-8, which is no command.
pub fn words_after_name(alloc: Global, args: io::Result<Args>) -> Result<Vec<String>, NoMemory>
    ensures { IfOk result (λ words. map string_bytes words.items ≡ words_of args) }
{
    let mut words = Vec::new(alloc);
    let mut args = match args {
        Ok(args) => args,
        Err(error) => {
            return match NoMemory::told_by(&error) {
                Some(refused) => Err(refused),
                None => Ok(words),
            };
        }
    };
    args.next();
    while let Some(word) = args.next() {
        push(&mut words, word)?;
    }
    Ok(words)
}
