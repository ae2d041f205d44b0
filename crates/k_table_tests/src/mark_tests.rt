//! Three nodes, of which marking reaches two, and the third is freed.
ghost use Rattle.std.specs.Prelude.{◌≡◌, ◌+◌, ◌<◌, [], IfOk};
ghost use Rattle.k_space.specs.Segments.{White, Black};
ghost use Rattle.k_mark.specs.Example.{AreConnected, AreNodes, ArePlaced, node_types};

use k_exit::ExitTable;
use k_mark::{Steps, Swept, clear, mark, root, sweep};
use k_space::{Area, Body, Segment};
use k_types::{Field, Link, NoMemory, Seg, Serial, Slot, TypeId, TypeTable};
use std::alloc::Global;
use std::marker::Brand;
use std::sync::ledger::{Blank, Ledger};
use std::test::Fail;

/// One type, of two references and an integer.
fn types(alloc: Global) -> Result<TypeTable, NoMemory>
    ensures { IfOk result (λ t. t ≡ node_types) }
{
    let node = Vec::from_array(alloc, [Field::Ref, Field::Ref, Field::Int])?;
    TypeTable::make(alloc, &[node])
}

/// Three new objects in a segment of their own, and the first two of them.
fn place_nodes(alloc: Global) -> Result<(Segment, Link, Link), NoMemory>
    ensures { IfOk result (λ r. ArePlaced r.0 r.1 r.2) }
{
    let types = types(alloc)?;
    let mut segment = Segment::make(alloc, Seg(1), 3)?;
    let first = segment.place(Body::make(alloc, &types, TypeId(0))?);
    let second = segment.place(Body::make(alloc, &types, TypeId(0))?);
    segment.place(Body::make(alloc, &types, TypeId(0))?);
    Ok((segment, first, second))
}

/// Has the first refer to the second in both reference fields, and the second back to the first.
fn connect(segment: &mut Segment, first: Link, second: Link)
    requires { ArePlaced segment.old first second }
    ensures { AreConnected segment.new first second }
{
    segment.write_ref(first.slot, 0, Some(second));
    segment.write_ref(first.slot, 1, Some(second));
    segment.write_ref(second.slot, 0, Some(first));
}

/// The three objects in an area, connected so.
fn three_nodes(alloc: Global) -> Result<Area, NoMemory>
    ensures { IfOk result (λ a. AreNodes a White White White) }
{
    let (mut segment, first, second) = place_nodes(alloc)?;
    connect(&mut segment, first, second);
    let mut area = Area::make(alloc, 1)?;
    area.add(segment);
    Ok(area)
}

/// Marks with the first object as the root: two are marked, in six steps.
fn mark_from_first<L: Ledger>(area: &mut Area, exits: &mut ExitTable, steps: &mut Steps<L>)
    requires nodes { AreNodes area.old White White White }
    requires exits { exits.old.items ≡ [] }
    ensures two { AreNodes area.new Black Black White }
    ensures six { steps.new ≡ steps.old + 6 }
{
    clear(area, exits);
    let first = Link {
        seg: Seg(1),
        slot: Slot(0),
        serial: Serial(1),
    };
    root(area, first);
    mark(area, exits, steps);
}

/// The same with a counter on that blank.
fn mark_on<L: Ledger>(blank: Blank, area: &mut Area, exits: &mut ExitTable)
    requires name { blank.name ≡ L.name }
    requires parts { blank.parts ≡ L.parts }
    requires some { 0 < blank.parts }
    requires nodes { AreNodes area.old White White White }
    requires exits { exits.old.items ≡ [] }
    ensures { AreNodes area.new Black Black White }
{
    let mut steps: Steps<L> = Steps::open(blank);
    mark_from_first(area, exits, &mut steps);
}

// Of three objects the third is unreached: two are marked, and one of 40 bytes is freed.
#[test]
fn the_third_node_is_freed(rt: HostRuntime) -> Result<(), Fail> {
    let mut area = three_nodes(rt.alloc())?;
    let mut exits = ExitTable::make(rt.alloc(), 1)?;
    mark_on::<Brand>(Blank::new(1), &mut area, &mut exits);
    let mut swept = Swept {
        objects: 0,
        bytes: 0,
    };
    sweep(&mut area, &mut swept);
    assert_eq!(rt; swept.objects, 1);
    assert_eq!(rt; swept.bytes, 40);
    let Some(segment) = area.get(Seg(1)) else {
        panic!(rt; "the segment is gone")
    };
    assert!(rt; segment.find(Serial(1)).is_some());
    assert!(rt; segment.find(Serial(2)).is_some());
    assert!(rt; segment.find(Serial(3)).is_none());
    assert_eq!(rt; segment.bytes(), 80);
    Ok(())
}
