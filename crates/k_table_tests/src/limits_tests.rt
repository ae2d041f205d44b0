//! Worked trees of limits below a root of 1,000 bytes. The first child is hard and has 120 bytes, the second is soft
//! and has 400 in most.
ghost use Rattle.std.specs.Prelude.{◌≡◌, Some, None, true, false};

use k_limits::{LimitTree, MakeError, ResizeRefusal};
use k_types::{LimitId, LimitRow};
use std::test::Fail;

const ROOT: LimitId = LimitId(0);

const A: LimitId = LimitId(1);

const B: LimitId = LimitId(2);

const C: LimitId = LimitId(3);

const D: LimitId = LimitId(4);

fn root(max: u64) -> LimitRow
    ensures { result ≡ record { parent = None; hard = true; max = max } }
{
    LimitRow {
        parent: None,
        hard: true,
        max,
    }
}

fn hard(parent: LimitId, max: u64) -> LimitRow
    ensures { result ≡ record { parent = Some parent; hard = true; max = max } }
{
    LimitRow {
        parent: Some(parent),
        hard: true,
        max,
    }
}

fn soft(parent: LimitId, max: u64) -> LimitRow
    ensures { result ≡ record { parent = Some parent; hard = false; max = max } }
{
    LimitRow {
        parent: Some(parent),
        hard: false,
        max,
    }
}

#[test]
fn a_hard_limit_is_full_at_its_maximum(rt: HostRuntime) -> Result<(), Fail> {
    let rows = [root(1000), hard(ROOT, 120), soft(ROOT, 400)];
    let mut tree = LimitTree::make(rt.alloc(), &rows)?;
    assert_eq!(rt; tree.use_of(ROOT), 120);
    assert!(rt; tree.charge(A, 40).is_ok());
    assert!(rt; tree.charge(A, 40).is_ok());
    assert!(rt; tree.charge(A, 40).is_ok());
    assert_eq!(rt; tree.charge(A, 40), Err(A));
    assert_eq!(rt; tree.charge(A, u64::MAX), Err(A));
    assert_eq!(rt; (tree.use_of(A), tree.use_of(ROOT)), (120, 120));
    Ok(())
}

#[test]
fn a_soft_limit_charges_upward(rt: HostRuntime) -> Result<(), Fail> {
    let rows = [root(1000), hard(ROOT, 120), soft(ROOT, 400)];
    let mut tree = LimitTree::make(rt.alloc(), &rows)?;
    assert!(rt; tree.charge(B, 40).is_ok());
    assert_eq!(rt; (tree.use_of(B), tree.use_of(ROOT)), (40, 160));
    assert_eq!(rt; (tree.charged(B), tree.charged(ROOT)), (40, 0));
    tree.credit(B, 40);
    assert_eq!(rt; (tree.use_of(B), tree.use_of(ROOT)), (0, 120));
    Ok(())
}

#[test]
fn two_hard_children_fill_a_soft_limit_exactly(rt: HostRuntime) -> Result<(), Fail> {
    let rows = [
        root(1000),
        hard(ROOT, 120),
        soft(ROOT, 400),
        hard(B, 300),
        hard(B, 100),
    ];
    let mut tree = LimitTree::make(rt.alloc(), &rows)?;
    assert_eq!(rt;
        (tree.use_of(B), tree.use_of(C), tree.use_of(D)),
        (400, 0, 0)
    );
    assert_eq!(rt; tree.use_of(ROOT), 520);
    assert_eq!(rt; tree.charge(B, 40), Err(B));
    Ok(())
}

#[test]
fn a_resize_moves_the_reservation(rt: HostRuntime) -> Result<(), Fail> {
    let rows = [root(1000), hard(ROOT, 120), soft(ROOT, 400)];
    let mut tree = LimitTree::make(rt.alloc(), &rows)?;
    assert!(rt; tree.charge(A, 40).is_ok());
    assert_eq!(rt; tree.resize(A, 39), Err(ResizeRefusal::InUse));
    assert_eq!(rt; tree.resize(A, 1001), Err(ResizeRefusal::Full(ROOT)));
    assert_eq!(rt; tree.resize(A, 1000), Ok(()));
    assert_eq!(rt; (tree.use_of(A), tree.use_of(ROOT)), (40, 1000));
    assert_eq!(rt; tree.resize(A, 40), Ok(()));
    assert_eq!(rt; (tree.use_of(A), tree.use_of(ROOT)), (40, 40));
    assert_eq!(rt; tree.charge(A, 1), Err(A));
    assert_eq!(rt; tree.resize(B, 2000), Ok(()));
    assert_eq!(rt; tree.use_of(ROOT), 40);
    Ok(())
}

#[test]
fn a_hard_child_of_one_byte_too_many_is_refused(rt: HostRuntime) {
    let rows = [
        root(1000),
        hard(ROOT, 120),
        soft(ROOT, 400),
        hard(B, 300),
        hard(B, 101),
    ];
    assert!(rt;
        matches!(
            LimitTree::make(rt.alloc(), &rows),
            Err(MakeError::ReserveFull(4))
        )
    );
}

#[test]
fn of_a_chain_of_soft_limits_the_parent_is_full(rt: HostRuntime) -> Result<(), Fail> {
    let rows = [root(1000), hard(ROOT, 120), soft(ROOT, 40), soft(B, 500)];
    let mut tree = LimitTree::make(rt.alloc(), &rows)?;
    assert!(rt; tree.charge(C, 40).is_ok());
    assert_eq!(rt; tree.charge(C, 40), Err(B));
    assert_eq!(rt;
        (tree.use_of(C), tree.use_of(B), tree.use_of(ROOT)),
        (40, 40, 160)
    );
    assert!(rt;
        tree.below(C, B)
            && tree.below(C, ROOT)
            && !tree.below(C, A)
            && !tree.below(C, C)
            && !tree.below(B, C)
    );
    Ok(())
}

/// A tree of so many roots.
fn make_roots(rt: &HostRuntime, count: u32) -> Result<LimitTree, Fail> {
    let rows = vec![in rt.alloc(); root(5); count as usize]?;
    Ok(LimitTree::make(rt.alloc(), &rows)?)
}

// A tree is made of no row, of one, and of more than 65,536.
#[test]
fn trees_are_made_of_none_and_of_many(rt: HostRuntime) -> Result<(), Fail> {
    for count in [0, 1, 70_000] {
        make_roots(&rt, count)?;
    }
    Ok(())
}
