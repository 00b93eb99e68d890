//! Pieces one after another.

ghost use Rattle.std.specs.Prelude.{◌≡◌, IfOk};
ghost use Rattle.line_pieces.specs.Pieces.{piece_text, pieces_text};
ghost use Rattle.line_pieces.specs.Pushed.{PushAppends};

use crate::numbers::push_ratio;
use crate::{push_number, push_quoted};
use maid_model::Ratio;
use std::alloc::{AllocError, Global};

/// A piece of a text, which it borrows.
#[derive(Clone, Copy)]
pub enum Piece<'a> {
    /// Bytes as they stand.
    Text(&'a [u8]),
    /// A whole number from nought, in decimal digits.
    Number(u128),
    /// A label or an agent's name between quotes.
    Quoted(&'a [u8]),
    /// A fraction: `n`, or `n/d` where d isn't 1.
    Fraction(&'a Ratio),
}

// Appends a piece.
fn push_piece(out: &mut Vec<u8>, piece: &Piece<'_>) -> Result<(), AllocError>
    ensures { PushAppends out.old out.new result (piece_text piece.now) }
{
    match piece {
        Piece::Text(bytes) => out.extend_from_slice(bytes),
        Piece::Number(number) => push_number(out, *number),
        Piece::Quoted(bytes) => push_quoted(out, bytes),
        Piece::Fraction(ratio) => push_ratio(out, ratio),
    }
}

/// Appends the pieces one after another.
pub fn push_pieces(out: &mut Vec<u8>, pieces: &[Piece<'_>]) -> Result<(), AllocError>
    ensures { PushAppends out.old out.new result (pieces_text pieces.now) }
{
    for piece in pieces {
        push_piece(out, piece)?;
    }
    Ok(())
}

/// The text of the pieces one after another.
pub fn joined(alloc: Global, pieces: &[Piece<'_>]) -> Result<Vec<u8>, AllocError>
    ensures { IfOk result (λ text. text.items ≡ pieces_text pieces.now) }
{
    let mut text = Vec::new(alloc);
    push_pieces(&mut text, pieces)?;
    Ok(text)
}
