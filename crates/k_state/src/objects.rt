//! Objects and their fields.
ghost use Rattle.std.specs.Prelude.{◌≡◌, ◌≤◌, ◌<◌, length, map, slice_index_or};
ghost use Rattle.k_state.specs.Contents.{content};
ghost use Rattle.k_types.specs.Owners.{object_bytes};
ghost use Rattle.k_types.specs.State.{Holds, content_leads_to, refers};
ghost use Rattle.k_types.specs.Updates.{object_after_write};

use crate::names::is_same_name;
use k_types::{Name, TypeId};
use std::marker::Model;

/// What a field holds.
#[derive(Clone, Copy, Debug)]
pub enum FieldValue {
    Reference(Option<Name>),
    Integer(u64),
}

// Whether the field refers to that name.
fn leads_to(value: FieldValue, name: Name) -> bool
    ensures { result ≡ content_leads_to name (content value) }
{
    match value {
        FieldValue::Reference(Some(other)) => is_same_name(other, name),
        _ => false,
    }
}

/// An object of the machine. The directory has no type.
#[derive(Drop)]
pub struct PlainObject {
    pub(crate) name: Name,
    pub(crate) ty: Option<TypeId>,
    pub(crate) fields: Vec<FieldValue>,
}

impl Model for PlainObject {
    ghost use Rattle.std.specs.Prelude.{map, length, ◌≤◌};
    ghost use Rattle.k_state.specs.Contents.{content};
    ghost use Rattle.k_types.specs.State.{Object};

    ghost Value = { Object };

    ghost view = { λ o. record { name = o.name; ty = o.ty; fields = map content o.fields.items } };

    ghost invariant = { λ o. length o.fields.items ≤ 16 };
}

impl PlainObject {
    /// The object of that name and type, with these fields.
    pub fn of(name: Name, ty: Option<TypeId>, fields: Vec<FieldValue>) -> PlainObject
        requires { length fields.items ≤ 16 }
        ensures { result ≡ record { name = name; ty = ty; fields = map content fields.items } }
    {
        PlainObject { name, ty, fields }
    }

    /// The object's name.
    pub fn name(&self) -> Name
        ensures { result ≡ self.now.name }
    {
        self.name
    }

    /// The object's type; the directory has none.
    pub fn ty(&self) -> Option<TypeId>
        ensures { result ≡ self.now.ty }
    {
        self.ty
    }

    /// The bytes that the object takes.
    pub fn size(&self) -> u64
        ensures size { result ≡ object_bytes self.now }
        ensures small { result ≤ 144 }
    {
        16 + 8 * self.fields.len() as u64
    }

    /// How many fields the object has.
    pub fn count(&self) -> usize
        ensures count { result ≡ length self.now.fields }
        ensures few { result ≤ 16 }
    {
        self.fields.len()
    }

    /// What the field holds.
    pub fn field(&self, i: usize) -> FieldValue
        requires { i < length self.now.fields }
        ensures { content result ≡ slice_index_or self.now.fields i (Holds 0) }
    {
        self.fields[i]
    }

    /// What the fields hold, in their order.
    pub fn fields(&self) -> &[FieldValue]
        ensures { map content result.now ≡ self.now.fields }
    {
        &self.fields
    }

    /// Whether some field refers to that name. Looks at each field.
    pub fn refers(&self, name: Name) -> bool
        ensures { result ≡ refers self.now name }
    {
        for value in &self.fields {
            if leads_to(*value, name) {
                return true;
            }
        }
        false
    }

    // Writes the field, where this is the object of that name.
    pub(crate) fn write(&mut self, name: Name, i: usize, value: FieldValue)
        ensures { self.new ≡ object_after_write name i (content value) self.old }
    {
        if is_same_name(self.name, name) && i < self.fields.len() {
            self.fields[i] = value;
        }
    }
}
