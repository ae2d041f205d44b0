//! The hash chains on which the exit items are found.
ghost use Rattle.std.specs.Prelude.{◌≡◌, ◌<◌, ◌≤◌, ◌^◌, ◌≢◌, IsTrue, IsFalse, Some, None, IfOk, IfSome, IfNone, length, map, replicate, ℕ, slice_set, vec_capacity};
ghost use Rattle.k_lists.specs.Hash.{bucket};
ghost use Rattle.k_exit.specs.Chains.{IsChained, IsLinked, IsLinkedAbove, IsNextAbove, HasNoneAbove, at, row_of, rows_without, with_next};

use k_lists::chain_of;
use k_types::{Name, NoMemory};
use std::alloc::Global;

/// A target, and the next item of its chain.
#[derive(Clone, Copy)]
pub(crate) struct Item {
    pub(crate) target: Name,
    pub(crate) marked: bool,
    // One more than the place of the next item; 0 at the end.
    pub(crate) next: u32,
}

/// The heads of so many empty chains, with memory for no more.
pub(crate) fn empty_heads(alloc: Global, chains: u32) -> Result<Vec<u32>, NoMemory>
    ensures items { IfOk result (λ heads. heads.items ≡ replicate chains 0) }
    ensures capacity { IfOk result (λ heads. vec_capacity heads ≡ chains) }
{
    let mut heads = Vec::with_capacity(alloc, chains as usize)?;
    for i in 0..chains {
        heads.push_reserved(0);
    }
    Ok(heads)
}

/// The place of the target, if it is there.
pub(crate) fn find(items: &[Item], heads: &[u32], target: Name) -> Option<usize>
    requires { IsChained items.now heads.now }
    ensures within { IfSome result (λ i. i < length items.now) }
    ensures there { IfSome result (λ i. (at items.now i).target ≡ target) }
    ensures none { IfNone result ((i : ℕ) → i < length items.now → (at items.now i).target ≢ target) }
{
    if heads.is_empty() {
        return None;
    }
    find_in(items, heads, chain_of(heads.len(), target), target)
}

/// The place of the target, if it is in its chain.
pub(crate) fn find_in(items: &[Item], heads: &[u32], chain: usize, target: Name) -> Option<usize>
    requires linked { IsChained items.now heads.now }
    requires chain { chain ≡ bucket (length heads.now) target }
    requires within { chain < length heads.now }
    ensures within { IfSome result (λ i. i < length items.now) }
    ensures there { IfSome result (λ i. (at items.now i).target ≡ target) }
    ensures none { IfNone result ((i : ℕ) → i < length items.now → (at items.now i).target ≢ target) }
{
    let mut next = heads[chain];
    while next != 0 {
        let i = (next - 1) as usize;
        if items[i].target == target {
            return Some(i);
        }
        next = items[i].next;
    }
    None
}

/// The lowest place of the chain above `i`, among the first `end`.
fn above(items: &[Item], heads: &[u32], end: usize, chain: usize, i: usize) -> Option<usize>
    requires chain { chain < length heads.now }
    requires place { i < length items.now }
    requires linked { IsLinkedAbove items.now heads.now end i }
    ensures some { IfSome result (λ p. IsNextAbove items.now heads.now end chain i p) }
    ensures none { IfNone result (HasNoneAbove items.now heads.now end chain i) }
{
    let mut found = None;
    let mut next = heads[chain] as usize;
    while next > i + 1 {
        found = Some(next - 1);
        next = items[next - 1].next as usize;
    }
    found
}

/// Changes the link of one item.
fn set_next(items: &mut Vec<Item>, i: usize, next: u32)
    requires { i < length items.old.items }
    ensures items { items.new.items ≡ with_next items.old.items i next }
    ensures capacity { vec_capacity items.new ≡ vec_capacity items.old }
{
    items[i].next = next;
}

/// Takes the item at `i` out of its chain.
fn unlink(items: &mut Vec<Item>, heads: &mut Vec<u32>, i: usize)
    requires place { i < length items.old.items }
    requires linked { IsChained items.old.items heads.old.items }
    ensures linked { IsLinked items.new.items heads.new.items (length items.old.items) i }
    ensures rows { map row_of items.new.items ≡ map row_of items.old.items }
    ensures capacity { vec_capacity items.new ≡ vec_capacity items.old }
    ensures room { length heads.new.items ≡ length heads.old.items }
    ensures heads_capacity { vec_capacity heads.new ≡ vec_capacity heads.old }
{
    let next = items[i].next;
    let chain = chain_of(heads.len(), items[i].target);
    match above(items, heads, items.len(), chain, i) {
        Some(p) => set_next(items, p, next),
        None => heads[chain] = next,
    }
}

/// Puts the item at `i`, which is the only one of the first `end` that is in no chain, into its
/// chain.
fn link(items: &mut Vec<Item>, heads: &mut Vec<u32>, end: usize, i: usize)
    requires place { i < end }
    requires linked { IsLinked items.old.items heads.old.items end i }
    ensures linked { IsLinked items.new.items heads.new.items end end }
    ensures rows { map row_of items.new.items ≡ map row_of items.old.items }
    ensures capacity { vec_capacity items.new ≡ vec_capacity items.old }
    ensures room { length heads.new.items ≡ length heads.old.items }
    ensures heads_capacity { vec_capacity heads.new ≡ vec_capacity heads.old }
{
    let chain = chain_of(heads.len(), items[i].target);
    link_in(items, heads, chain, end, i);
}

/// The same where the number of the chain is known.
pub(crate) fn link_in(
    items: &mut Vec<Item>,
    heads: &mut Vec<u32>,
    chain: usize,
    end: usize,
    i: usize,
)
    requires place { i < end }
    requires linked { IsLinked items.old.items heads.old.items end i }
    requires chain { chain ≡ bucket (length heads.old.items) (at items.old.items i).target }
    requires within { chain < length heads.old.items }
    ensures linked { IsLinked items.new.items heads.new.items end end }
    ensures rows { map row_of items.new.items ≡ map row_of items.old.items }
    ensures capacity { vec_capacity items.new ≡ vec_capacity items.old }
    ensures room { length heads.new.items ≡ length heads.old.items }
    ensures heads_capacity { vec_capacity heads.new ≡ vec_capacity heads.old }
{
    match above(items, heads, end, chain, i) {
        Some(p) => {
            let next = items[p].next;
            set_next(items, i, next);
            set_next(items, p, i as u32 + 1);
        }
        None => {
            let next = heads[chain];
            set_next(items, i, next);
            heads[chain] = i as u32 + 1;
        }
    }
}

/// Takes the item at `i` out. The last item takes its place.
pub(crate) fn remove(items: &mut Vec<Item>, heads: &mut Vec<u32>, i: usize) -> Name
    requires place { i < length items.old.items }
    requires linked { IsChained items.old.items heads.old.items }
    ensures target { result ≡ (at items.old.items i).target }
    ensures linked { IsChained items.new.items heads.new.items }
    ensures rows { map row_of items.new.items ≡ rows_without (map row_of items.old.items) i }
    ensures capacity { vec_capacity items.new ≡ vec_capacity items.old }
    ensures room { length heads.new.items ≡ length heads.old.items }
    ensures heads_capacity { vec_capacity heads.new ≡ vec_capacity heads.old }
{
    let target = items[i].target;
    let last = items.len() - 1;
    unlink(items, heads, last);
    let moved = items[last];
    items.truncate(last);
    if i < last {
        replace(items, heads, i, moved);
    }
    target
}

/// Puts another target in the place of the one at `i`.
fn replace(items: &mut Vec<Item>, heads: &mut Vec<u32>, i: usize, moved: Item)
    requires place { i < length items.old.items }
    requires linked { IsChained items.old.items heads.old.items }
    ensures linked { IsChained items.new.items heads.new.items }
    ensures rows { map row_of items.new.items ≡ slice_set (map row_of items.old.items) i (row_of moved) }
    ensures capacity { vec_capacity items.new ≡ vec_capacity items.old }
    ensures room { length heads.new.items ≡ length heads.old.items }
    ensures heads_capacity { vec_capacity heads.new ≡ vec_capacity heads.old }
{
    unlink(items, heads, i);
    items[i] = moved;
    link(items, heads, items.len(), i);
}

/// Links all items anew.
pub(crate) fn relink(items: &mut Vec<Item>, heads: &mut Vec<u32>)
    requires room { length items.old.items ≤ length heads.old.items }
    requires small { length heads.old.items < 2 ^ 32 }
    ensures linked { IsChained items.new.items heads.new.items }
    ensures rows { map row_of items.new.items ≡ map row_of items.old.items }
    ensures capacity { vec_capacity items.new ≡ vec_capacity items.old }
    ensures room { length heads.new.items ≡ length heads.old.items }
    ensures heads_capacity { vec_capacity heads.new ≡ vec_capacity heads.old }
{
    heads.fill(0);
    let len = items.len();
    for i in 0..len {
        link(items, heads, i + 1, i);
    }
}
