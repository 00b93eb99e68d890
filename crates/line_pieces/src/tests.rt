//! Numbers, strings, fractions and several pieces in one call; names are tested in the lines above.

use super::*;
use maid_model::Ratio;
use std::test::Fail;

#[test]
fn numbers_from_nought(rt: HostRuntime) -> Result<(), Fail> {
    let mut out = Vec::new(rt.alloc());
    push_number(&mut out, 0)?;
    push_number(&mut out, 120)?;
    assert_eq!(rt; out.as_slice(), b"0120".as_slice());
    Ok(())
}

#[test]
fn quotes_and_backslashes(rt: HostRuntime) -> Result<(), Fail> {
    let mut out = Vec::new(rt.alloc());
    push_quoted(&mut out, b"a\"b\\")?;
    assert_eq!(rt; out.as_slice(), b"\"a\\\"b\\\\\"".as_slice());
    Ok(())
}

#[test]
fn pieces_one_behind_another(rt: HostRuntime) -> Result<(), Fail> {
    let pieces = [
        Piece::Text(b"row "),
        Piece::Number(12),
        Piece::Text(b": "),
        Piece::Quoted(b"a\"b"),
    ];
    let text = joined(rt.alloc(), &pieces)?;
    assert_eq!(rt; text.as_slice(), b"row 12: \"a\\\"b\"".as_slice());
    Ok(())
}

#[test]
fn fractions_and_whole_numbers(rt: HostRuntime) -> Result<(), Fail> {
    for (num, den, want) in [(3, 1, "3"), (-7, 2, "-7/2"), (0, 1, "0")] {
        let text = joined(rt.alloc(), &[Piece::Fraction(&Ratio { num, den })])?;
        assert_eq!(rt; text.as_slice(), want.as_bytes(), "{want}");
    }
    Ok(())
}
