//! Names, numbers and split texts.
use k_words::{NameList, number, register, split_at_line};
use std::test::Fail;

#[test]
fn names_are_numbered_in_order(rt: HostRuntime) -> Result<(), Fail> {
    let mut names = NameList::new(rt.alloc());
    for (at, name) in [b"Node".as_slice(), b"Row".as_slice()].iter().enumerate() {
        assert!(rt; !names.declares(name));
        names.declare(rt.alloc(), name)?;
        assert!(rt; names.number(name) == Some(at));
    }
    assert_eq!(rt; names.len(), 2);
    assert!(rt; names.name(1) == b"Row".as_slice());
    assert!(rt; names.number(b"Rows").is_none());
    Ok(())
}

#[test]
fn numbers_have_one_spelling(rt: HostRuntime) {
    assert!(rt; number(b"18446744073709551615", 1 << 64) == Some(u64::MAX));
    assert!(rt; number(b"18446744073709551616", 1 << 64).is_none());
    assert!(rt; number(b"007", 16).is_none());
    assert!(rt; register(b"r15") == Some(15));
    assert!(rt; register(b"r16").is_none());
}

#[test]
fn a_text_is_split_at_the_first_such_line(rt: HostRuntime) {
    for (text, front) in [
        (b"a\nreport 1\nb\nreport 1\n".as_slice(), 2),
        (b"report 1\n".as_slice(), 0),
        (b"a\nreport 1".as_slice(), 2),
        (b"a\nreport 12\n report 1\n".as_slice(), 22),
        (b"".as_slice(), 0),
    ] {
        let (before, after) = split_at_line(text, b"report 1");
        assert_eq!(rt; before.len(), front, "{text:?}");
        assert_eq!(rt; before.len() + after.len(), text.len(), "{text:?}");
    }
}
