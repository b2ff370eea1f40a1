// Texts that are made of pieces, each so many times. In the copy of a piece with number i, from 0
// on, `#` stands for i and `$` for the next number, each as three digits.

use std::alloc::{AllocError, Global};

// Adds the last three digits of a number.
fn push_number(text: &mut Vec<u8>, number: u32) -> Result<(), AllocError> {
    text.push(b'0' + (number / 100 % 10) as u8)?;
    text.push(b'0' + (number / 10 % 10) as u8)?;
    text.push(b'0' + (number % 10) as u8)?;
    Ok(())
}

// Adds a byte of a piece, or the number that it stands for.
fn push_byte(text: &mut Vec<u8>, byte: u8, number: u32) -> Result<(), AllocError> {
    match byte {
        b'#' => push_number(text, number)?,
        b'$' => push_number(text, number.saturating_add(1))?,
        _ => text.push(byte)?,
    }
    Ok(())
}

fn push_piece(text: &mut Vec<u8>, piece: &[u8], number: u32) -> Result<(), AllocError> {
    for byte in piece {
        push_byte(text, *byte, number)?;
    }
    Ok(())
}

// Adds the pieces, each so many times.
pub fn push_pieces(text: &mut Vec<u8>, pieces: &[(u32, &str)]) -> Result<(), AllocError> {
    for (times, piece) in pieces {
        for number in 0..*times {
            push_piece(text, piece.as_bytes(), number)?;
        }
    }
    Ok(())
}

// The pieces, each so many times.
pub fn text_of(alloc: Global, pieces: &[(u32, &str)]) -> Result<Vec<u8>, AllocError> {
    let mut text = Vec::new(alloc);
    push_pieces(&mut text, pieces)?;
    Ok(text)
}
