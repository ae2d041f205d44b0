//! The lines of registers, exit items and shares.
ghost use Rattle.std.specs.Prelude.{◌≡◌, ◌<◌, ◌∷◌, [], length, option_map, IfSome};
ghost use Rattle.k_words.specs.Words.{words_of};
ghost use Rattle.k_audit.specs.Items.{exit_item, root, sharing};
ghost use Rattle.k_audit.specs.Reading.{exit_of, gone_of, root_of, share_of};

use crate::words::read_spelled;
use k_history::heap_named;
use k_trace::Names;
use k_types::{Heap, Name, Pid, Reg, SharedId};
use k_words::{is, register, word, word_count};

/// The process that the words `gone P` name.
#[tactic(auto, unfolding(crate::specs::Reading::gone_of))]
pub fn read_gone(names: &Names, line: &[u8]) -> Option<Pid>
    ensures gone { result ≡ gone_of names.now (words_of line.now) }
    ensures few { IfSome result (λ pid. pid.0 < 64) }
{
    if word_count(line) != 2 {
        return None;
    }
    if !is(word(line, 0), b"gone") {
        return None;
    }
    names.proc_named(word(line, 1))
}

/// A register that is not null.
#[derive(Clone, Copy, Debug)]
pub struct RootLine {
    pub pid: Pid,
    pub r: Reg,
    pub name: Name,
}

/// The register that the words are.
#[tactic(auto, unfolding(crate::specs::Reading::root_of))]
pub fn read_root(names: &Names, line: &[u8]) -> Option<RootLine>
    ensures root { option_map root result ≡ root_of names.now (words_of line.now) }
    ensures process { IfSome result (λ root. root.pid.0 < length names.now.procs) }
    ensures few { IfSome result (λ root. root.pid.0 < 64) }
    ensures register { IfSome result (λ root. root.r.0 < 16) }
{
    if word_count(line) != 3 {
        return None;
    }
    let pid = names.proc_named(word(line, 0))?;
    let r = register(word(line, 1))?;
    let name = read_spelled(names, word(line, 2))?;
    Some(RootLine {
        pid,
        r: Reg(r),
        name,
    })
}

/// An exit item.
#[derive(Clone, Copy, Debug)]
pub struct ExitLine {
    pub heap: Heap,
    pub target: Name,
}

/// The exit item that the words are.
#[tactic(auto, unfolding(crate::specs::Reading::exit_of))]
pub fn read_exit(names: &Names, line: &[u8]) -> Option<ExitLine>
    ensures { option_map exit_item result ≡ exit_of names.now (words_of line.now) }
{
    if word_count(line) != 2 {
        return None;
    }
    let heap = heap_named(names, word(line, 0))?;
    let target = read_spelled(names, word(line, 1))?;
    Some(ExitLine { heap, target })
}

/// A share.
#[derive(Clone, Copy, Debug)]
pub struct ShareLine {
    pub pid: Pid,
    pub heap: SharedId,
}

/// The share that the words are.
#[tactic(auto, unfolding(crate::specs::Reading::share_of))]
pub fn read_share(names: &Names, line: &[u8]) -> Option<ShareLine>
    ensures share { option_map sharing result ≡ share_of names.now (words_of line.now) }
    ensures few { IfSome result (λ share. (share.pid.0 < 64) × (share.heap.0 < 64)) }
{
    if word_count(line) != 2 {
        return None;
    }
    let pid = names.proc_named(word(line, 0))?;
    let heap = names.shared_named(word(line, 1))?;
    Some(ShareLine { pid, heap })
}
