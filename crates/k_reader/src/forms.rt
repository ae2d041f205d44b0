//! The operation that the words of a line are, or why they are none.
ghost use Rattle.std.specs.Prelude.{◌≡◌};
ghost use Rattle.k_words.specs.Words.{words_of};
ghost use Rattle.k_trace.specs.Forms.{new_form, knew_form, snew_form, store_form, load_form, move_form, drop_form, dir_form, put_form, get_form, share_form, freeze_form, attach_form, kill_form, resize_form, bare_form, governing_op, sharing_op, bare_op, register_op, op_of, op_in};

use crate::version::may_govern;
use k_limits::{MAXIMUM_BELOW, Op, Reg};
use k_trace::{Names, Reason};
use k_words::{is, number, register, word, word_count};

#[tactic(auto, unfolding(k_trace::specs::Forms::new_form, k_trace::specs::Demands::demands))]
fn new_form(names: &Names, line: &[u8]) -> Result<Op, Reason>
    ensures { result ≡ new_form names.now (words_of line.now) }
{
    if word_count(line) != 3 {
        return Err(Reason::NoForm);
    }
    let Some(reg) = register(word(line, 1)) else {
        return Err(Reason::NoNumber);
    };
    let Some(ty) = names.type_named(word(line, 2)) else {
        return Err(Reason::Undeclared);
    };
    Ok(Op::New { reg: Reg(reg), ty })
}

#[tactic(auto, unfolding(k_trace::specs::Forms::knew_form, k_trace::specs::Demands::demands))]
fn knew_form(names: &Names, line: &[u8]) -> Result<Op, Reason>
    ensures { result ≡ knew_form names.now (words_of line.now) }
{
    if word_count(line) != 3 {
        return Err(Reason::NoForm);
    }
    let Some(reg) = register(word(line, 1)) else {
        return Err(Reason::NoNumber);
    };
    let Some(ty) = names.type_named(word(line, 2)) else {
        return Err(Reason::Undeclared);
    };
    Ok(Op::KNew { reg: Reg(reg), ty })
}

#[tactic(auto, unfolding(k_trace::specs::Forms::snew_form, k_trace::specs::Demands::demands))]
fn snew_form(names: &Names, line: &[u8]) -> Result<Op, Reason>
    ensures { result ≡ snew_form names.now (words_of line.now) }
{
    if word_count(line) != 4 {
        return Err(Reason::NoForm);
    }
    let Some(reg) = register(word(line, 1)) else {
        return Err(Reason::NoNumber);
    };
    let Some(shared) = names.shared_named(word(line, 2)) else {
        return Err(Reason::Undeclared);
    };
    let Some(ty) = names.type_named(word(line, 3)) else {
        return Err(Reason::Undeclared);
    };
    Ok(Op::SNew {
        reg: Reg(reg),
        shared,
        ty,
    })
}

#[tactic(auto, unfolding(k_trace::specs::Forms::store_form, k_trace::specs::Demands::demands))]
fn store_form(line: &[u8]) -> Result<Op, Reason>
    ensures { result ≡ store_form (words_of line.now) }
{
    if word_count(line) != 4 {
        return Err(Reason::NoForm);
    }
    let Some(base) = register(word(line, 1)) else {
        return Err(Reason::NoNumber);
    };
    let Some(field) = number(word(line, 2), 16) else {
        return Err(Reason::NoNumber);
    };
    let Some(value) = register(word(line, 3)) else {
        return Err(Reason::NoNumber);
    };
    let field = field as u32;
    Ok(Op::Store {
        base: Reg(base),
        field,
        value: Reg(value),
    })
}

#[tactic(auto, unfolding(k_trace::specs::Forms::load_form, k_trace::specs::Demands::demands))]
fn load_form(line: &[u8]) -> Result<Op, Reason>
    ensures { result ≡ load_form (words_of line.now) }
{
    if word_count(line) != 4 {
        return Err(Reason::NoForm);
    }
    let Some(reg) = register(word(line, 1)) else {
        return Err(Reason::NoNumber);
    };
    let Some(base) = register(word(line, 2)) else {
        return Err(Reason::NoNumber);
    };
    let Some(field) = number(word(line, 3), 16) else {
        return Err(Reason::NoNumber);
    };
    let field = field as u32;
    Ok(Op::Load {
        reg: Reg(reg),
        base: Reg(base),
        field,
    })
}

#[tactic(auto, unfolding(k_trace::specs::Forms::move_form, k_trace::specs::Demands::demands))]
fn move_form(line: &[u8]) -> Result<Op, Reason>
    ensures { result ≡ move_form (words_of line.now) }
{
    if word_count(line) != 3 {
        return Err(Reason::NoForm);
    }
    let Some(reg) = register(word(line, 1)) else {
        return Err(Reason::NoNumber);
    };
    let Some(from) = register(word(line, 2)) else {
        return Err(Reason::NoNumber);
    };
    Ok(Op::Move {
        reg: Reg(reg),
        from: Reg(from),
    })
}

#[tactic(auto, unfolding(k_trace::specs::Forms::drop_form, k_trace::specs::Demands::demands))]
fn drop_form(line: &[u8]) -> Result<Op, Reason>
    ensures { result ≡ drop_form (words_of line.now) }
{
    if word_count(line) != 2 {
        return Err(Reason::NoForm);
    }
    let Some(reg) = register(word(line, 1)) else {
        return Err(Reason::NoNumber);
    };
    Ok(Op::Clear { reg: Reg(reg) })
}

#[tactic(auto, unfolding(k_trace::specs::Forms::dir_form, k_trace::specs::Demands::demands))]
fn dir_form(line: &[u8]) -> Result<Op, Reason>
    ensures { result ≡ dir_form (words_of line.now) }
{
    if word_count(line) != 2 {
        return Err(Reason::NoForm);
    }
    let Some(reg) = register(word(line, 1)) else {
        return Err(Reason::NoNumber);
    };
    Ok(Op::Dir { reg: Reg(reg) })
}

#[tactic(auto, unfolding(k_trace::specs::Forms::put_form, k_trace::specs::Demands::demands))]
fn put_form(line: &[u8]) -> Result<Op, Reason>
    ensures { result ≡ put_form (words_of line.now) }
{
    if word_count(line) != 4 {
        return Err(Reason::NoForm);
    }
    let Some(base) = register(word(line, 1)) else {
        return Err(Reason::NoNumber);
    };
    let Some(field) = number(word(line, 2), 16) else {
        return Err(Reason::NoNumber);
    };
    let Some(value) = number(word(line, 3), 1 << 64) else {
        return Err(Reason::NoNumber);
    };
    let field = field as u32;
    Ok(Op::Put {
        base: Reg(base),
        field,
        number: value,
    })
}

#[tactic(auto, unfolding(k_trace::specs::Forms::get_form, k_trace::specs::Demands::demands))]
fn get_form(line: &[u8]) -> Result<Op, Reason>
    ensures { result ≡ get_form (words_of line.now) }
{
    if word_count(line) != 3 {
        return Err(Reason::NoForm);
    }
    let Some(base) = register(word(line, 1)) else {
        return Err(Reason::NoNumber);
    };
    let Some(field) = number(word(line, 2), 16) else {
        return Err(Reason::NoNumber);
    };
    let field = field as u32;
    Ok(Op::Get {
        base: Reg(base),
        field,
    })
}

#[tactic(auto, unfolding(k_trace::specs::Forms::share_form, k_trace::specs::Demands::demands))]
fn share_form(names: &Names, line: &[u8]) -> Result<Op, Reason>
    ensures { result ≡ share_form names.now (words_of line.now) }
{
    if word_count(line) != 2 {
        return Err(Reason::NoForm);
    }
    let Some(shared) = names.shared_named(word(line, 1)) else {
        return Err(Reason::Undeclared);
    };
    Ok(Op::Share { shared })
}

#[tactic(auto, unfolding(k_trace::specs::Forms::freeze_form, k_trace::specs::Demands::demands))]
fn freeze_form(names: &Names, line: &[u8]) -> Result<Op, Reason>
    ensures { result ≡ freeze_form names.now (words_of line.now) }
{
    if word_count(line) != 3 {
        return Err(Reason::NoForm);
    }
    let Some(root) = register(word(line, 2)) else {
        return Err(Reason::NoNumber);
    };
    let Some(shared) = names.shared_named(word(line, 1)) else {
        return Err(Reason::Undeclared);
    };
    Ok(Op::Freeze {
        shared,
        root: Reg(root),
    })
}

#[tactic(auto, unfolding(k_trace::specs::Forms::attach_form, k_trace::specs::Demands::demands))]
fn attach_form(names: &Names, line: &[u8]) -> Result<Op, Reason>
    ensures { result ≡ attach_form names.now (words_of line.now) }
{
    if word_count(line) != 3 {
        return Err(Reason::NoForm);
    }
    let Some(reg) = register(word(line, 1)) else {
        return Err(Reason::NoNumber);
    };
    let Some(shared) = names.shared_named(word(line, 2)) else {
        return Err(Reason::Undeclared);
    };
    Ok(Op::Attach {
        reg: Reg(reg),
        shared,
    })
}

#[tactic(auto, unfolding(k_trace::specs::Forms::kill_form, k_trace::specs::Demands::demands))]
fn kill_form(names: &Names, line: &[u8]) -> Result<Op, Reason>
    ensures { result ≡ kill_form names.now (words_of line.now) }
{
    if word_count(line) != 2 {
        return Err(Reason::NoForm);
    }
    let Some(target) = names.proc_named(word(line, 1)) else {
        return Err(Reason::Undeclared);
    };
    Ok(Op::Kill { target })
}

#[tactic(auto, unfolding(k_trace::specs::Forms::resize_form, k_trace::specs::Demands::demands))]
fn resize_form(names: &Names, line: &[u8]) -> Result<Op, Reason>
    ensures { result ≡ resize_form names.now (words_of line.now) }
{
    if word_count(line) != 3 {
        return Err(Reason::NoForm);
    }
    let Some(max) = number(word(line, 2), MAXIMUM_BELOW as u128) else {
        return Err(Reason::NoNumber);
    };
    let Some(limit) = names.limit_named(word(line, 1)) else {
        return Err(Reason::Undeclared);
    };
    Ok(Op::Resize { limit, max })
}

#[tactic(auto, unfolding(k_trace::specs::Demands::demands))]
fn bare_form(line: &[u8], op: Op) -> Result<Op, Reason>
    ensures { result ≡ bare_form (words_of line.now) op }
{
    if word_count(line) != 1 {
        return Err(Reason::NoForm);
    }
    Ok(op)
}

#[tactic(auto, unfolding(k_trace::specs::Forms::governing_op, k_trace::specs::Demands::demands))]
fn governing_op(names: &Names, line: &[u8]) -> Result<Op, Reason>
    ensures { result ≡ governing_op names.now (words_of line.now) }
{
    let verb = word(line, 0);
    if is(verb, b"kill") {
        return kill_form(names, line);
    }
    if is(verb, b"resize") {
        return resize_form(names, line);
    }
    Err(Reason::NoForm)
}

#[tactic(auto, unfolding(k_trace::specs::Forms::sharing_op, k_trace::specs::Demands::demands))]
fn sharing_op(names: &Names, line: &[u8]) -> Result<Op, Reason>
    ensures { result ≡ sharing_op names.now (words_of line.now) }
{
    let verb = word(line, 0);
    if is(verb, b"snew") {
        return snew_form(names, line);
    }
    if is(verb, b"share") {
        return share_form(names, line);
    }
    if is(verb, b"freeze") {
        return freeze_form(names, line);
    }
    if is(verb, b"attach") {
        return attach_form(names, line);
    }
    governing_op(names, line)
}

#[tactic(auto, unfolding(k_trace::specs::Forms::bare_op, k_trace::specs::Demands::demands))]
fn bare_op(names: &Names, line: &[u8]) -> Result<Op, Reason>
    ensures { result ≡ bare_op names.now (words_of line.now) }
{
    let verb = word(line, 0);
    if is(verb, b"collect") {
        return bare_form(line, Op::Collect);
    }
    if is(verb, b"kcollect") {
        return bare_form(line, Op::KCollect);
    }
    if is(verb, b"exit") {
        return bare_form(line, Op::Exit);
    }
    sharing_op(names, line)
}

#[tactic(auto, unfolding(k_trace::specs::Forms::register_op, k_trace::specs::Demands::demands))]
fn register_op(names: &Names, line: &[u8]) -> Result<Op, Reason>
    ensures { result ≡ register_op names.now (words_of line.now) }
{
    let verb = word(line, 0);
    if is(verb, b"move") {
        return move_form(line);
    }
    if is(verb, b"drop") {
        return drop_form(line);
    }
    if is(verb, b"dir") {
        return dir_form(line);
    }
    if is(verb, b"put") {
        return put_form(line);
    }
    if is(verb, b"get") {
        return get_form(line);
    }
    bare_op(names, line)
}

/// The operation of a line that begins with the verb, over these names; or the lowest reason why it
/// is none.
#[tactic(auto, unfolding(k_trace::specs::Forms::op_of, k_trace::specs::Demands::demands))]
pub fn read_op(names: &Names, line: &[u8]) -> Result<Op, Reason>
    ensures { result ≡ op_of names.now (words_of line.now) }
{
    let verb = word(line, 0);
    if is(verb, b"new") {
        return new_form(names, line);
    }
    if is(verb, b"knew") {
        return knew_form(names, line);
    }
    if is(verb, b"store") {
        return store_form(line);
    }
    if is(verb, b"load") {
        return load_form(line);
    }
    register_op(names, line)
}

/// The operation of a line that begins with the verb, in a trace of that version and over these
/// names; or the lowest reason why it is none.
#[tactic(auto, unfolding(k_trace::specs::Forms::op_in, k_trace::specs::Demands::demands))]
pub(crate) fn read_op_in(version: u32, names: &Names, line: &[u8]) -> Result<Op, Reason>
    ensures { result ≡ op_in version names.now (words_of line.now) }
{
    let verb = word(line, 0);
    let governs = is(verb, b"kill") || is(verb, b"resize");
    if governs && !may_govern(version) {
        return Err(Reason::NoForm);
    }
    read_op(names, line)
}
