//! Numbers that go from list to list, and lists over few and many numbers.
use k_lists::Lists;
use std::test::Fail;

// Two lists over four numbers: what is pushed last comes first, and a number that was taken out can go into the other.
#[test]
fn a_number_goes_from_one_list_to_the_other(rt: HostRuntime) -> Result<(), Fail> {
    let mut lists = Lists::make(rt.alloc(), 2, 4)?;
    lists.push_front(0, 3);
    lists.push_front(0, 1);
    assert!(rt; lists.first(0) == Some(1));
    assert!(rt; lists.next(1) == Some(3));
    lists.remove(0, 1);
    lists.push_front(1, 1);
    assert!(rt; lists.first(0) == Some(3));
    assert!(rt; lists.first(1) == Some(1));
    assert!(rt; lists.next(1).is_none());
    Ok(())
}

// Lists are made for no number and none, and for more than 65,536.
#[test]
fn lists_are_made_for_none_and_for_many(rt: HostRuntime) -> Result<(), Fail> {
    let none = Lists::make(rt.alloc(), 1, 0)?;
    assert!(rt; none.first(0).is_none());
    Lists::make(rt.alloc(), 0, 0)?;
    let many = Lists::make(rt.alloc(), 70_000, 70_000)?;
    assert!(rt; many.first(69_999).is_none());
    assert!(rt; many.next(69_999).is_none());
    Ok(())
}
