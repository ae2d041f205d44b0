//! Worked scripts, computed by the definitions, and what holds of every script that bytes are.
ghost use Rattle.std.specs.Prelude.{◌≡◌, Ok};
ghost use Rattle.std.specs.List.{AllByRecursion};
ghost use Rattle.k_trace.specs.Rules.{IsTrace};
ghost use Rattle.k_trace.specs.Words.{Text};
ghost use Rattle.k_spawn.specs.Agreement.{TreesAgree};
ghost use Rattle.k_spawn.specs.Judgement.{judgement, IsBad};
ghost use Rattle.k_spawn.specs.Scripts.{Script};
ghost use Rattle.k_spawn.specs.Translated.{IsLineOf};
ghost use Rattle.k_spawn.specs.Translation.{translation};
ghost use Rattle.k_spawn.specs.Worked.{tree_text, text_by_tree, words_by_tree, full_child, full_child_text, full_child_replies, full_child_report, reaps_itself_text, goes_on_text, spawns_itself_text, whole_tree, whole_tree_text, whole_tree_report};

/// A child takes what its limit has, and its parent has room again once it has reaped the child.
#[tactic(auto, using(crate::proofs::FullChild::read, crate::proofs::FullChild::reported, crate::proofs::FullChild::answered, crate::proofs::FullChild::same_end))]
pub fn full_child_row()
    ensures read { judgement full_child_text ≡ Ok full_child }
    ensures reported { tree_text full_child ≡ full_child_report }
    ensures answered { words_by_tree full_child ≡ full_child_replies }
    ensures same { text_by_tree full_child ≡ full_child_report }
{}

/// Nobody but its parent reaps a child, and none spawns who is no child.
#[tactic(auto, using(crate::proofs::FullChild::stranger, crate::proofs::FullChild::no_child))]
pub fn strangers_row()
    ensures reaped { IsBad reaps_itself_text 15 14 }
    ensures spawned { IsBad spawns_itself_text 15 14 }
{}

/// A child that was reaped does nothing more.
#[tactic(auto, using(crate::proofs::FullChild::untimely))]
pub fn reaped_child_row()
    ensures { IsBad goes_on_text 17 15 }
{}

/// A reaping ends all below the child before the child, and a refused spawn leaves a maximum of 0.
#[tactic(auto, using(crate::proofs::WholeTree::read, crate::proofs::WholeTree::reported, crate::proofs::WholeTree::same_end))]
pub fn whole_tree_row()
    ensures read { judgement whole_tree_text ≡ Ok whole_tree }
    ensures reported { tree_text whole_tree ≡ whole_tree_report }
    ensures same { text_by_tree whole_tree ≡ whole_tree_report }
{}

/// Of every script that bytes are, the translation is a trace, and each line speaks of processes of the script.
pub fn scripts_keep_the_rules()
    ensures rules { (bytes : Text) (s : Script) → judgement bytes ≡ Ok s → IsTrace (translation s) }
    ensures lines { (bytes : Text) (s : Script) → judgement bytes ≡ Ok s → AllByRecursion (IsLineOf s) s.lines }
{}

/// Of every script that bytes are, the translation is a trace, and the one-thread machine on it agrees with the tree machine.
pub fn trees_agree()
    ensures { TreesAgree }
{}
