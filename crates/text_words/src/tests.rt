//! Blanked comments, numbers and names of worked texts.

use crate::{CommentError, Number, blank_comments, name_at, number_of, signed_at, symbol_at};
use std::test::Fail;

#[test]
fn comments_nest_and_lines_stay(rt: HostRuntime) -> Result<(), Fail> {
    let text = blank_comments(rt.alloc(), b"a(*b(*c*)\nd*)e")?;
    assert_eq!(rt; text.as_slice(), b"a        \n   e".as_slice());
    let open = blank_comments(rt.alloc(), b"ab (* (* *)");
    assert_eq!(rt; open.err(), Some(CommentError::Open { left: 7 }));
    let quoted = blank_comments(rt.alloc(), b"\"(*\" x")?;
    assert_eq!(rt; quoted.as_slice(), b"\"(*\" x".as_slice());
    Ok(())
}

#[test]
fn numbers_have_a_sign_and_a_base(rt: HostRuntime) -> Result<(), Fail> {
    let (minus, rest) = signed_at(b" - 0x10,").ok_or("no number")?;
    assert_eq!(rt; minus, Number::Word(4294967280));
    assert_eq!(rt; rest, b",".as_slice());
    assert_eq!(rt; number_of(b"4294967295"), Some(Number::Word(4294967295)));
    assert_eq!(rt; number_of(b"4294967296"), Some(Number::Wide));
    assert_eq!(rt; number_of(b"0xFF"), Some(Number::Word(255)));
    assert_eq!(rt; number_of(b"12a"), None);
    Ok(())
}

#[test]
fn names_stand_behind_blanks(rt: HostRuntime) -> Result<(), Fail> {
    let rest = symbol_at(b"[", b"\r\n\t [x0_a]").ok_or("no bracket")?;
    let Some((name, rest)) = name_at(rest) else {
        return Err(Fail::from("no name"));
    };
    assert_eq!(rt; name.as_slice(), b"x0_a".as_slice());
    assert_eq!(rt; rest, b"]".as_slice());
    assert!(rt; name_at(b"5x").is_none());
    Ok(())
}
