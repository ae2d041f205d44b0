//! The fields of one object.
ghost use Rattle.std.specs.Prelude.{◌≡◌, length, slice_get, slice_set, Some, slice_index_or, option_map, ℕ, ◌<◌, ◌≤◌, IfOk};
ghost use Rattle.k_space.specs.declared.body.Stored.TheVariants.{Null as NoTarget};
ghost use Rattle.k_types.specs.State.{Refers, Holds, field_kind, fresh};
ghost use Rattle.k_types.specs.Types.{object_size};
ghost use Rattle.k_space.specs.Objects.{HasRef, HasInt, content_of, new_body, new_directory};
ghost use Rattle.k_types.specs.Names.{name_of};

use crate::chains::short;
use k_types::{Field, Link, Name, NoMemory, Slot, TypeId, TypeTable, object_size};
use std::alloc::Global;
use std::marker::Model;

/// A reference as a field keeps it, which leaves 32 bits for the hint of a slot. It stands for its name; no clause speaks of the hint.
#[derive(Clone, Copy, Debug)]
pub struct ShortLink {
    pub name: Name,
    pub slot: u32,
}

impl ShortLink {
    /// The reference in that form. A hint that does not fit becomes 0.
    fn of(link: Link) -> ShortLink
        ensures { result.name ≡ name_of link }
    {
        ShortLink {
            name: link.name(),
            slot: short(link.slot.0),
        }
    }

    /// The reference in a running table, with the same hint.
    pub fn link(self) -> Link
        ensures { name_of result ≡ self.name }
    {
        let ShortLink { name, slot } = self;
        Link {
            seg: name.seg,
            serial: name.serial,
            slot: Slot(slot as usize),
        }
    }
}

/// What a field holds: a reference, or null, or a number.
#[derive(Clone, Copy, Debug)]
pub enum Stored {
    Null,
    Refers(ShortLink),
    Holds(u64),
}

impl Stored {
    /// A field as it is when its object is made.
    fn fresh(kind: Field) -> Stored
        ensures { content_of result ≡ fresh kind }
    {
        match kind {
            Field::Ref => Stored::Null,
            Field::Int => Stored::Holds(0),
        }
    }

    /// A reference as a field keeps it.
    fn of_ref(value: Option<Link>) -> Stored
        ensures { content_of result ≡ Refers (option_map name_of value) }
    {
        match value {
            Some(link) => Stored::Refers(ShortLink::of(link)),
            None => Stored::Null,
        }
    }
}

/// The content of one object, of at most 16 fields.
#[derive(Drop)]
pub struct Body {
    ty: Option<TypeId>,
    fields: Vec<Stored>,
}

impl Model for Body {
    ghost use Rattle.std.specs.Prelude.{map, length, ◌≤◌};
    ghost use Rattle.k_space.specs.Objects.{BodyValue, content_of};

    ghost Value = { BodyValue };

    ghost view = { λ b. record { ty = b.ty; fields = map content_of b.fields.items } };

    ghost invariant = { λ b. length b.fields.items ≤ 16 };
}

impl Body {
    /// A new object of the type: references are null, integers are 0. `NoMemory` comes where its fields
    /// find no memory.
    pub fn make(alloc: Global, types: &TypeTable, ty: TypeId) -> Result<Body, NoMemory>
        requires { ty.0 < length types.now }
        ensures { IfOk result (λ b. b ≡ new_body types.now ty) }
    {
        let count = types.field_count(ty);
        let mut fields = Vec::with_capacity(alloc, count as usize)?;
        for i in 0..count {
            let Some(kind) = types.kind_of(ty, i) else {
                unreachable!()
            };
            fields.push_reserved(Stored::fresh(kind));
        }
        Ok(Body {
            ty: Some(ty),
            fields,
        })
    }

    /// The directory, with so many references, all null. `NoMemory` comes where they find no memory.
    pub fn directory(alloc: Global, fields: u32) -> Result<Body, NoMemory>
        requires { fields ≤ 16 }
        ensures { IfOk result (λ b. b ≡ new_directory fields) }
    {
        let fields = vec![in alloc; Stored::Null; fields as usize]?;
        Ok(Body { ty: None, fields })
    }

    /// The object's type. The directory alone has none.
    pub fn type_of(&self) -> Option<TypeId>
        ensures { result ≡ self.now.ty }
    {
        self.ty
    }

    /// The size of the object in bytes: 16, and 8 for each field. Constant time.
    pub fn bytes(&self) -> u64
        ensures size { result ≡ object_size (length self.now.fields) }
        ensures most { result ≤ 144 }
    {
        object_size(self.fields.len() as u32)
    }

    /// The number of fields.
    pub(crate) fn len(&self) -> u32
        ensures { result ≡ length self.now.fields }
    {
        self.fields.len() as u32
    }

    /// The kind of a field; nothing past the last one.
    pub(crate) fn kind_of(&self, field: u32) -> Option<Field>
        ensures { result ≡ option_map field_kind (slice_get self.now.fields field) }
    {
        match self.fields.get(field as usize) {
            Some(Stored::Null) => Some(Field::Ref),
            Some(Stored::Refers(_)) => Some(Field::Ref),
            Some(Stored::Holds(_)) => Some(Field::Int),
            None => None,
        }
    }

    /// What the field holds.
    pub(crate) fn stored(&self, field: u32) -> Stored
        requires { field < length self.now.fields }
        ensures { slice_get self.now.fields field ≡ Some (content_of result) }
    {
        self.fields[field as usize]
    }

    /// Writes what the fields hold to the front of the list, and gives their number.
    pub(crate) fn copy_to(&self, into: &mut [Stored]) -> u32
        requires { 16 ≤ length into.old }
        ensures count { result ≡ length self.now.fields }
        ensures most { result ≤ 16 }
        ensures copied { (i : ℕ) → i < result → slice_get self.now.fields i ≡ Some (content_of (slice_index_or into.new i NoTarget)) }
        ensures len { length into.new ≡ length into.old }
    {
        let count = self.fields.len() as u32;
        for i in 0..count {
            into[i as usize] = self.stored(i);
        }
        count
    }

    /// What the reference field refers to; nothing where it is null.
    pub(crate) fn read_ref(&self, field: u32) -> Option<Link>
        requires { HasRef self.now.fields field }
        ensures { slice_get self.now.fields field ≡ Some (Refers (option_map name_of result)) }
    {
        match self.fields[field as usize] {
            Stored::Refers(target) => Some(target.link()),
            Stored::Null => None,
            Stored::Holds(_) => None,
        }
    }

    /// The number in the integer field.
    pub(crate) fn read_int(&self, field: u32) -> u64
        requires { HasInt self.now.fields field }
        ensures { slice_get self.now.fields field ≡ Some (Holds result) }
    {
        match self.fields[field as usize] {
            Stored::Holds(number) => number,
            Stored::Null => 0,
            Stored::Refers(_) => 0,
        }
    }

    /// Makes the field a reference, or null.
    pub(crate) fn write_ref(&mut self, field: u32, value: Option<Link>)
        requires { field < length self.old.fields }
        ensures { self.new ≡ record self.old { fields = slice_set self.old.fields field (Refers (option_map name_of value)) } }
    {
        self.fields[field as usize] = Stored::of_ref(value);
    }

    /// Makes the field an integer.
    pub(crate) fn write_int(&mut self, field: u32, value: u64)
        requires { field < length self.old.fields }
        ensures { self.new ≡ record self.old { fields = slice_set self.old.fields field (Holds value) } }
    {
        self.fields[field as usize] = Stored::Holds(value);
    }
}
