//! The object that a line is.
ghost use Rattle.std.specs.Prelude.{◌≡◌, [], ◌<◌, ◌≤◌, length, map, option_map, slice_index_or, IfOk, IfSome};
ghost use Rattle.k_words.specs.Words.{words_of};
ghost use Rattle.k_state.specs.Contents.{content};
ghost use Rattle.k_types.specs.Sound.{kinds_by};
ghost use Rattle.k_types.specs.Trace.{trace_of};
ghost use Rattle.k_types.specs.declared.names.Field.TheVariants.{Ref};
ghost use Rattle.k_text.specs.Named.{AreNamed};
ghost use Rattle.k_audit.specs.Objects.{owned};
ghost use Rattle.k_audit.specs.Reading.{contents_at, head_of, object_of, object_with};

use crate::words::{read_content, read_spelled, read_type};
use k_history::heap_named;
use k_io::{NoMemory, push};
use k_state::{FieldValue, PlainObject};
use k_trace::Names;
use k_types::{Field, Heap, Name, Setup, TypeId};
use k_words::{word, word_count};
use std::alloc::Global;

/// The word at which the fields of an object begin.
const FIRST_FIELD: usize = 3;

/// How many fields an object of the type has, or the directory where there is none.
fn field_count(setup: &Setup, ty: Option<TypeId>) -> u32
    requires known { IfSome ty (λ t. t.0 < length setup.now.types) }
    requires few { setup.now.dir_fields ≤ 16 }
    ensures count { result ≡ length (kinds_by (trace_of setup.now [] []) ty) }
    ensures few { result ≤ 16 }
{
    match ty {
        Some(ty) => setup.types.field_count(ty),
        None => setup.dir_fields,
    }
}

/// The kind of that field.
fn kind_at(setup: &Setup, ty: Option<TypeId>, field: u32) -> Field
    requires known { IfSome ty (λ t. t.0 < length setup.now.types) }
    requires field { field < length (kinds_by (trace_of setup.now [] []) ty) }
    ensures { result ≡ slice_index_or (kinds_by (trace_of setup.now [] []) ty) field Ref }
{
    match ty {
        Some(ty) => match setup.types.kind_of(ty, field) {
            Some(kind) => kind,
            None => Field::Ref,
        },
        None => Field::Ref,
    }
}

/// What the fields hold that the words from the fourth on are; `None` where they are no such fields.
fn read_fields(
    alloc: Global,
    setup: &Setup,
    names: &Names,
    ty: Option<TypeId>,
    line: &[u8],
) -> Result<Option<Vec<FieldValue>>, NoMemory>
    requires known { IfSome ty (λ t. t.0 < length setup.now.types) }
    requires few { setup.now.dir_fields ≤ 16 }
    ensures read { IfOk result (λ r. option_map (λ fields. map content fields.items) r ≡ contents_at names.now (kinds_by (trace_of setup.now [] []) ty) (words_of line.now) 3) }
    ensures few { IfOk result (λ r. IfSome r (λ fields. length fields.items ≤ 16)) }
{
    let count = field_count(setup, ty);
    let mut fields = Vec::new(alloc);
    for i in 0..count {
        let Some(value) = read_content(
            names,
            kind_at(setup, ty, i),
            word(line, FIRST_FIELD + i as usize),
        ) else {
            return Ok(None);
        };
        push(&mut fields, value)?;
    }
    if word_count(line) == FIRST_FIELD + count as usize {
        Ok(Some(fields))
    } else {
        Ok(None)
    }
}

/// An object, and the owner that is claimed for it.
#[derive(Drop)]
pub struct OwnedObject {
    pub owner: Heap,
    pub object: PlainObject,
}

/// What the first three words of an object's line say.
#[derive(Clone, Copy, Debug)]
pub struct ObjectHead {
    pub name: Name,
    pub owner: Heap,
    pub ty: Option<TypeId>,
}

/// The object with what its first three words say, and the fields that the words behind them are.
#[tactic(auto, unfolding(crate::specs::Reading::object_with))]
fn read_object_with(
    alloc: Global,
    setup: &Setup,
    names: &Names,
    head: ObjectHead,
    line: &[u8],
) -> Result<Option<OwnedObject>, NoMemory>
    requires known { IfSome head.ty (λ t. t.0 < length setup.now.types) }
    requires few { setup.now.dir_fields ≤ 16 }
    ensures { IfOk result (λ r. option_map owned r ≡ object_with names.now (trace_of setup.now [] []) head (words_of line.now)) }
{
    match read_fields(alloc, setup, names, head.ty, line)? {
        Some(fields) => Ok(Some(OwnedObject {
            owner: head.owner,
            object: PlainObject::of(head.name, head.ty, fields),
        })),
        None => Ok(None),
    }
}

/// What the first three words of the line are.
#[tactic(auto, unfolding(crate::specs::Reading::head_of))]
fn read_head(names: &Names, line: &[u8]) -> Option<ObjectHead>
    ensures head { result ≡ head_of names.now (words_of line.now) }
    ensures known { IfSome result (λ head. IfSome head.ty (λ t. t.0 < length names.now.types)) }
{
    let name = read_spelled(names, word(line, 0))?;
    let owner = heap_named(names, word(line, 1))?;
    let ty = read_type(names, name, word(line, 2))?;
    Some(ObjectHead { name, owner, ty })
}

/// The object that the line is; `None` where it is none. Looks at each word of the line up to those of the fields that the object's
/// type has, and counts the words.
#[tactic(auto, unfolding(crate::specs::Reading::object_of))]
pub fn read_object(
    alloc: Global,
    setup: &Setup,
    names: &Names,
    line: &[u8],
) -> Result<Option<OwnedObject>, NoMemory>
    requires named { AreNamed names.now (trace_of setup.now [] []) }
    requires few { setup.now.dir_fields ≤ 16 }
    ensures { IfOk result (λ r. option_map owned r ≡ object_of names.now (trace_of setup.now [] []) (words_of line.now)) }
{
    match read_head(names, line) {
        Some(head) => read_object_with(alloc, setup, names, head, line),
        None => Ok(None),
    }
}
