//! What the fields of objects hold, by name.
ghost use Rattle.std.specs.Prelude.{◌≡◌, ◌≤◌};
ghost use Rattle.k_state.specs.Contents.{content};
ghost use Rattle.k_types.specs.Replies.{field_at, field_count, is_ref, number_in, reference};

use k_state::{FieldValue, PlainLists};
use k_types::Name;

/// How many fields the object has; 0 where there is no such object.
pub fn field_count(lists: &PlainLists, x: Name) -> u32
    ensures count { result ≡ field_count lists.now.state x }
    ensures few { result ≤ 16 }
{
    match lists.object(x) {
        Some(object) => object.count() as u32,
        None => 0,
    }
}

/// What the field of the object holds; the number 0 where there is no such object or no such field.
pub fn field_at(lists: &PlainLists, x: Name, field: u32) -> FieldValue
    ensures { content result ≡ field_at lists.now.state x field }
{
    match lists.object(x) {
        Some(object) if (field as usize) < object.count() => object.field(field as usize),
        _ => FieldValue::Integer(0),
    }
}

// Whether the field's value is a reference.
pub(crate) fn is_ref(value: FieldValue) -> bool
    ensures { result ≡ is_ref (content value) }
{
    matches!(value, FieldValue::Reference(_))
}

/// The reference that a field holds; null where it holds a number.
pub fn reference(value: FieldValue) -> Option<Name>
    ensures { result ≡ reference (content value) }
{
    match value {
        FieldValue::Reference(held) => held,
        FieldValue::Integer(_) => None,
    }
}

/// The number that a field holds; 0 where it holds a reference.
pub fn number_in(value: FieldValue) -> u64
    ensures { result ≡ number_in (content value) }
{
    match value {
        FieldValue::Reference(_) => 0,
        FieldValue::Integer(number) => number,
    }
}
