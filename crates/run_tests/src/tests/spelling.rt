//! Names, and words and numbers in texts.

use qc_base::{
    Name, number_of, number_until, push_number, small_number_until, split_once, strip_prefix,
};
use std::test::Fail;

#[test]
fn names_are_their_bytes(rt: HostRuntime) -> Result<(), Fail> {
    let name = Name::from_bytes(rt.alloc(), b"q")?;
    assert!(rt; name.copy(rt.alloc())? == name);
    assert!(rt; name.bytes() == b"q".as_slice());
    Ok(())
}

#[test]
fn words_and_numbers_end_at_their_sign(rt: HostRuntime) -> Result<(), Fail> {
    assert!(rt; strip_prefix(b"step 1", b"step ") == Some(b"1".as_slice()));
    assert!(rt; strip_prefix(b"steps 1", b"step ").is_none());
    assert!(rt; split_once(b"a b c", b' ') == Some((b"a".as_slice(), b"b c".as_slice())));
    assert!(rt; split_once(b"abc", b' ').is_none());
    let largest = number_until(b"18446744073709551615\n", b'\n');
    assert!(rt; largest == Some((18446744073709551615, b"".as_slice())));
    let numbers: [&[u8]; 6] = [
        b"18446744073709551616\n",
        b"01\n",
        b"+1\n",
        b"-1\n",
        b" 1\n",
        b"\n",
    ];
    for number in numbers {
        assert!(rt; number_until(number, b'\n').is_none());
    }
    assert!(rt; number_of(b"10") == Some(10));
    assert!(rt; number_of(b"10 ").is_none());
    let small = small_number_until(b"4294967295 1", b' ');
    assert!(rt; small == Some((4294967295, b"1".as_slice())));
    assert!(rt; small_number_until(b"4294967296 1", b' ').is_none());
    Ok(())
}

#[test]
fn a_number_is_appended(rt: HostRuntime) -> Result<(), Fail> {
    let mut out = Vec::from_slice(rt.alloc(), b"step ")?;
    push_number(&mut out, 10)?;
    assert!(rt; out.as_slice() == b"step 10".as_slice());
    Ok(())
}
