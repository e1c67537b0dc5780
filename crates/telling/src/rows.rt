// The bytes and the words of a line, in 8 rows.
#![tactic(auto, using(crate::proofs::Parts::more_parts))]

ghost use Rattle.std.specs.Prelude.{Some};
ghost use Rattle.telling.specs.Rows.{byte_row, byte_rows, word_row, word_rows};

use std::fmt;
use text::{Hex, HexByte};

const ROWS: usize = 8;

// A row has 16 bytes, or 4 words.
const ROW_BYTES: usize = 16;

const ROW_WORDS: usize = 4;

// Bytes with a space in front of each.
#[derive(Clone, Copy)]
pub(crate) struct ByteRow<'a>(pub(crate) &'a [u8]);

impl<'a> fmt::Display for ByteRow<'a> {
    ghost output = { λ row. Some (byte_row row.0.now) };

    fn fmt<W: fmt::Write>(&self, f: &mut fmt::Formatter<W>) -> fmt::Result {
        for byte in self.0 {
            let byte = HexByte(*byte);
            write!(f, " {byte}")?;
        }
        Ok(())
    }
}

// Words with a space in front of each.
#[derive(Clone, Copy)]
pub(crate) struct WordRow<'a>(pub(crate) &'a [u32]);

impl<'a> fmt::Display for WordRow<'a> {
    ghost output = { λ row. Some (word_row row.0.now) };

    fn fmt<W: fmt::Write>(&self, f: &mut fmt::Formatter<W>) -> fmt::Result {
        for word in self.0 {
            let word = Hex(*word);
            write!(f, " {word}")?;
        }
        Ok(())
    }
}

// The 128 bytes of a line, in rows below what stands before them. A margin is in front of each row.
#[derive(Clone, Copy)]
pub(crate) struct ByteRows<'a> {
    pub(crate) margin: &'a str,
    pub(crate) bytes: &'a [u8; 128],
}

impl<'a> fmt::Display for ByteRows<'a> {
    ghost output = { λ rows. Some (byte_rows rows.margin.now rows.bytes.now) };

    fn fmt<W: fmt::Write>(&self, f: &mut fmt::Formatter<W>) -> fmt::Result {
        let ByteRows { margin, bytes } = *self;
        let bytes = &bytes[..];
        for k in 0..ROWS {
            let start = ROW_BYTES * k;
            let row = ByteRow(&bytes[start..start + ROW_BYTES]);
            write!(f, "\n{margin}{row}")?;
        }
        Ok(())
    }
}

// The 32 words of a line, in rows as the bytes.
#[derive(Clone, Copy)]
pub(crate) struct WordRows<'a>(pub(crate) &'a [u32; 32]);

impl<'a> fmt::Display for WordRows<'a> {
    ghost output = { λ rows. Some (word_rows rows.0.now) };

    fn fmt<W: fmt::Write>(&self, f: &mut fmt::Formatter<W>) -> fmt::Result {
        let words = self.0;
        let words = &words[..];
        for k in 0..ROWS {
            let start = ROW_WORDS * k;
            let row = WordRow(&words[start..start + ROW_WORDS]);
            write!(f, "\n {row}")?;
        }
        Ok(())
    }
}
