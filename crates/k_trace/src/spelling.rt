//! The words of an operation, on its line of a trace and on its line of a report.
ghost use Rattle.std.specs.Prelude.{◌≡◌, ℕ, ◌<◌, ◌≤◌, ◌+◌, ◌++◌, ◌∷◌, [], List, length, decimal};
ghost use Rattle.k_words.specs.Numbers.{register_word};
ghost use Rattle.k_trace.specs.Spelling.{op_words};
ghost use Rattle.k_trace.specs.NamedOps.{IsNamedOp};
ghost use Rattle.k_words.specs.Spaced.{spaced};

use crate::names::Names;
use k_limits::{Op, Reg};
use k_words::LineBuffer;

/// Adds a space and a register.
pub fn push_register(line: &mut LineBuffer, r: Reg)
    requires room { length line.old + 22 ≤ 1024 }
    ensures text { line.new ≡ line.old ++ 32 ∷ register_word r.0 }
    ensures short { length line.new ≤ length line.old + 22 }
{
    line.push_text(b" r");
    line.push_digits(u64::from(r.0));
}

/// Adds a word and a register.
fn push_on(line: &mut LineBuffer, word: &[u8], r: Reg)
    requires { length line.old + length word.now + 23 ≤ 1024 }
    ensures text { line.new ≡ line.old ++ spaced (word.now ∷ register_word r.0 ∷ []) }
    ensures short { length line.new ≤ length line.old + length word.now + 23 }
{
    line.push_word(word);
    push_register(line, r);
}

/// Adds a word, a register and the number of a field.
fn push_access(line: &mut LineBuffer, word: &[u8], base: Reg, field: u32)
    requires { length line.old + length word.now + 44 ≤ 1024 }
    ensures text { line.new ≡ line.old ++ spaced (word.now ∷ register_word base.0 ∷ decimal field ∷ []) }
    ensures short { length line.new ≤ length line.old + length word.now + 44 }
{
    push_on(line, word, base);
    line.push_number(u64::from(field));
}

/// Adds a word, a register and a name.
fn push_made(line: &mut LineBuffer, word: &[u8], r: Reg, name: &[u8])
    requires { length line.old + length word.now + length name.now + 24 ≤ 1024 }
    ensures text { line.new ≡ line.old ++ spaced (word.now ∷ register_word r.0 ∷ name.now ∷ []) }
    ensures short { length line.new ≤ length line.old + length word.now + length name.now + 24 }
{
    push_on(line, word, r);
    line.push_word(name);
}

/// Adds the words of an operation, each with a space before it.
#[tactic(auto, unfolding(crate::specs::Spelling::op_words))]
pub fn push_op(line: &mut LineBuffer, names: &Names, op: &Op)
    requires known { IsNamedOp names.now op.now }
    requires room { length line.old + 100 ≤ 1024 }
    ensures text { line.new ≡ line.old ++ spaced (op_words names.now op.now) }
    ensures short { length line.new ≤ length line.old + 100 }
{
    match *op {
        Op::New { reg, ty } => push_made(line, b"new", reg, names.type_name(ty)),
        Op::KNew { reg, ty } => push_made(line, b"knew", reg, names.type_name(ty)),
        Op::SNew { reg, shared, ty } => {
            push_made(line, b"snew", reg, names.shared_name(shared));
            line.push_word(names.type_name(ty));
        }
        Op::Store { base, field, value } => {
            push_access(line, b"store", base, field);
            push_register(line, value);
        }
        Op::Load { reg, base, field } => {
            push_on(line, b"load", reg);
            push_register(line, base);
            line.push_number(u64::from(field));
        }
        Op::Move { reg, from } => {
            push_on(line, b"move", reg);
            push_register(line, from);
        }
        Op::Clear { reg } => push_on(line, b"drop", reg),
        Op::Dir { reg } => push_on(line, b"dir", reg),
        Op::Put {
            base,
            field,
            number,
        } => {
            push_access(line, b"put", base, field);
            line.push_number(number);
        }
        Op::Get { base, field } => push_access(line, b"get", base, field),
        Op::Collect => line.push_word(b"collect"),
        Op::KCollect => line.push_word(b"kcollect"),
        Op::Share { shared } => line.push_words(b"share", names.shared_name(shared)),
        Op::Freeze { shared, root } => {
            line.push_words(b"freeze", names.shared_name(shared));
            push_register(line, root);
        }
        Op::Attach { reg, shared } => push_made(line, b"attach", reg, names.shared_name(shared)),
        Op::Exit => line.push_word(b"exit"),
        Op::Kill { target } => line.push_words(b"kill", names.proc_name(target)),
        Op::Resize { limit, max } => {
            line.push_words(b"resize", names.limit_name(limit));
            line.push_number(max);
        }
    }
}
