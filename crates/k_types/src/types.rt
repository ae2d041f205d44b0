//! The table of the types that a trace declares.
ghost use Rattle.std.specs.Prelude.{◌≡◌, ◌<◌, ◌≤◌, length, map, slice_get, IfOk};
ghost use Rattle.k_types.specs.Bounds.{most_fields};
ghost use Rattle.k_types.specs.Types.{HaveFewFields, object_size, type_row};

use crate::names::{Field, TypeId};
use crate::no_memory::NoMemory;
use std::alloc::Global;
use std::marker::Model;

/// How many bytes an object of so many fields takes: a header of 16, and 8 for each field.
pub fn object_size(fields: u32) -> u64
    ensures { result ≡ object_size fields }
{
    16 + 8 * u64::from(fields)
}

/// The types of a trace: for each the kinds of its fields, of which there are at most 16.
///
/// Contracts see the table as the list of its rows, by the number of the type.
#[derive(Drop)]
pub struct TypeTable {
    rows: Vec<Vec<Field>>,
}

impl Model for TypeTable {
    ghost use Rattle.std.specs.Prelude.{List, map};
    ghost use Rattle.k_types.specs.Types.{HaveFewFields};
    ghost use Rattle.k_types.specs.declared.names.Field.{Field};

    ghost Value = { List (List Field) };

    ghost view = { λ t. map (λ row. row.items) t.rows.items };

    ghost invariant = { λ t. HaveFewFields (map (λ row. row.items) t.rows.items) };
}

impl TypeTable {
    /// A table of copies of the rows. `NoMemory` comes where the copies find no memory.
    pub fn make(alloc: Global, rows: &[Vec<Field>]) -> Result<TypeTable, NoMemory>
        requires { HaveFewFields (map (λ row. row.items) rows.now) }
        ensures { IfOk result (λ t. t ≡ map (λ row. row.items) rows.now) }
    {
        let mut copies = Vec::new(alloc);
        for row in rows {
            copies.push(row.as_slice().to_vec(alloc)?)?;
        }
        Ok(TypeTable { rows: copies })
    }

    /// Another table with the same rows. `NoMemory` comes where the copies find no memory.
    pub fn copy(&self, alloc: Global) -> Result<TypeTable, NoMemory>
        ensures { IfOk result (λ t. t ≡ self.now) }
    {
        TypeTable::make(alloc, &self.rows)
    }

    /// How many types there are.
    pub fn len(&self) -> usize
        ensures { result ≡ length self.now }
    {
        self.rows.len()
    }

    /// How many bytes an object of the type takes.
    pub fn size_of(&self, ty: TypeId) -> u64
        requires { ty.0 < length self.now }
        ensures size { result ≡ object_size (length (type_row self.now ty)) }
        ensures small { length (type_row self.now ty) ≤ most_fields }
    {
        object_size(self.field_count(ty))
    }

    /// How many fields an object of the type has.
    pub fn field_count(&self, ty: TypeId) -> u32
        requires { ty.0 < length self.now }
        ensures count { result ≡ length (type_row self.now ty) }
        ensures few { result ≤ most_fields }
    {
        self.rows[ty.0 as usize].len() as u32
    }

    /// The kind of a field of the type; `None` past the last field.
    pub fn kind_of(&self, ty: TypeId, field: u32) -> Option<Field>
        requires { ty.0 < length self.now }
        ensures { result ≡ slice_get (type_row self.now ty) field }
    {
        self.rows[ty.0 as usize].get(field as usize).copied()
    }
}
