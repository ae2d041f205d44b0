//! New objects.
ghost use Rattle.std.specs.Prelude.{◌≡◌, ◌<◌, IfOk, OnErr, OnOk, map, length};
ghost use Rattle.k_state.specs.Contents.{content};
ghost use Rattle.k_state.specs.Rooms.{HasRoom};
ghost use Rattle.k_types.specs.State.{fresh};
ghost use Rattle.k_types.specs.Trace.{kinds_of, segment_count};
ghost use Rattle.k_types.specs.Types.{HaveFewFields, type_row};
ghost use Rattle.k_types.specs.Updates.{create, next_name};

use crate::lists::PlainLists;
use crate::objects::{FieldValue, PlainObject};
use k_types::{Field, MOST_FIELDS, Name, NoMemory, Seg, Serial, TypeId, TypeTable};
use std::alloc::Global;

// A field as it is when its object is made.
fn fresh(kind: Field) -> FieldValue
    ensures { content result ≡ fresh kind }
{
    match kind {
        Field::Ref => FieldValue::Reference(None),
        Field::Int => FieldValue::Integer(0),
    }
}

// The fields of a new object of the type.
#[tactic(auto, using(crate::proofs::Fields::fields_next, crate::proofs::Fields::fields_end))]
fn fresh_fields(alloc: Global, types: &TypeTable, ty: TypeId) -> Result<Vec<FieldValue>, NoMemory>
    requires ty { ty.0 < length types.now }
    requires few { HaveFewFields types.now }
    ensures { IfOk result (λ v. map content v.items ≡ map fresh (type_row types.now ty)) }
{
    let mut fields = Vec::new(alloc);
    for i in 0..MOST_FIELDS as u32 {
        let Some(kind) = types.kind_of(ty, i) else {
            return Ok(fields);
        };
        fields.push(fresh(kind))?;
    }
    Ok(fields)
}

impl PlainLists {
    /// Makes the segment's next object, of the type, and gives its name. It is put at the end of its segment. `NoMemory` comes
    /// where the object finds no memory, and leaves the state as it was.
    pub fn create(&mut self, alloc: Global, seg: Seg, ty: TypeId) -> Result<Name, NoMemory>
        requires seg { seg.0 < segment_count self.old.setup }
        requires ty { ty.0 < length self.old.setup.types }
        requires room { HasRoom 1 self.old.state }
        ensures setup { self.new.setup ≡ self.old.setup }
        ensures name { IfOk result (λ name. name ≡ next_name seg.0 self.old.state) }
        ensures ok { OnOk result (self.new.state ≡ create seg.0 ty (kinds_of self.old.setup ty) self.old.state) }
        ensures err { OnErr result (self.new ≡ self.old) }
    {
        let made = self.made[seg.0 as usize];
        let next = made + 1;
        let fields = fresh_fields(alloc, &self.setup.types, ty)?;
        let name = Name {
            seg,
            serial: Serial(next),
        };
        let object = PlainObject {
            name,
            ty: Some(ty),
            fields,
        };
        self.segments.push(object)?;
        self.made[seg.0 as usize] = next;
        Ok(name)
    }
}
