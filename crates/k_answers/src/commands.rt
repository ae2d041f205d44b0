//! The commands, by their words.
ghost use Rattle.std.specs.Prelude.{◌≡◌, map, string_bytes};
ghost use Rattle.k_answers.specs.Commands.{command_named, command_numbered, command_of, samples_of};

use k_big::objects_of;
use k_words::number;

/// The most samples that a watcher is asked for.
const MOST_SAMPLES: u32 = 1000;

/// What the program is asked to do.
#[derive(Clone, Copy, Debug, PartialEq, Eq)]
pub enum Command {
    /// Runs a trace on threads and writes its report.
    Run,
    /// Does the operations in the order of the file, so that the report is a function of the trace.
    Replay,
    /// Reads a trace and a report, and says whether the report is that of a run of the trace.
    Check,
    /// Makes the trace of the workload, in which each process makes so many objects, runs it on threads and writes its summary.
    Big(u32),
    /// Runs a trace on threads beside a watcher that takes so many samples, and writes its report and the samples.
    Watch(u32),
    /// Runs a trace on threads, and writes its report and the work of its collections, by who asked for them.
    Work,
    /// Does the operations in the order of the file, and writes the snapshot of the state that they leave.
    Snap,
    /// Reads a trace and a snapshot, and says whether the snapshot is that of a sound state over the header of the trace.
    Audit,
    /// Does the operations of a script's translation in the order of the file, and writes their report.
    Tree,
}

/// The command that the words, those after the program's name, are; `None` where they are none.
pub fn command_of(words: &[String]) -> Option<Command>
    ensures { result ≡ command_of (map string_bytes words.now) }
{
    match words {
        [word] => command_named(word.as_str()),
        [word, number] => command_numbered(word.as_str(), number.as_str()),
        _ => None,
    }
}

/// The command that the word alone names.
fn command_named(word: &str) -> Option<Command>
    ensures { result ≡ command_named word.now }
{
    match word {
        "run" => Some(Command::Run),
        "replay" => Some(Command::Replay),
        "check" => Some(Command::Check),
        "work" => Some(Command::Work),
        "snap" => Some(Command::Snap),
        "audit" => Some(Command::Audit),
        "tree" => Some(Command::Tree),
        _ => None,
    }
}

/// The command that the word names with a number behind it.
fn command_numbered(word: &str, number: &str) -> Option<Command>
    ensures { result ≡ command_numbered word.now number.now }
{
    match word {
        "big" => objects_of(number.as_bytes()).map(Command::Big),
        "watch" => samples_of(number.as_bytes()).map(Command::Watch),
        _ => None,
    }
}

/// The number of samples that the word is, from 0 to [`MOST_SAMPLES`], with no sign and no 0 before another digit; `None` where it is
/// another word.
fn samples_of(word: &[u8]) -> Option<u32>
    ensures { result ≡ samples_of word.now }
{
    match number(word, MOST_SAMPLES as u128 + 1) {
        Some(samples) => Some(samples as u32),
        None => None,
    }
}
