// The line of some bytes of a memory.
ghost use Rattle.std.specs.Prelude.{◌≡◌, ◌+◌, ◌/◌, ◌%◌, ◌≤◌, ◌∷◌, [], length};
ghost use Rattle.line_text.specs.Pieces.{Adds};
ghost use Rattle.line_text.specs.RowText.{row_room, row_text, IsRow};

use crate::pieces::{write_data, write_word};
use outside::Piece;

/// The words of the line of up to 16 bytes of a memory, from an offset below 2^32 on.
#[derive(Clone, Copy)]
pub struct RowLine<'a> {
    pub offset: usize,
    pub bytes: &'a [u8],
}

// The bytes of an offset, the most significant first.
#[inline(always)]
fn offset_bytes(offset: usize) -> [u8; 4]
    ensures { result ≡ (offset / 16777216) % 256 ∷ (offset / 65536) % 256 ∷ (offset / 256) % 256 ∷ offset % 256 ∷ [] }
{
    [
        (offset / 16777216 % 256) as u8,
        (offset / 65536 % 256) as u8,
        (offset / 256 % 256) as u8,
        (offset % 256) as u8,
    ]
}

// Writes the line.
#[inline(always)]
fn write_row(bytes: &mut [u8], start: usize, row: &RowLine<'_>) -> usize
    requires row { IsRow row.now }
    requires room { start + row_room row.now ≤ length bytes.old }
    ensures adds { Adds bytes.old bytes.new start result (row_text row.now) }
    ensures end { result ≡ start + row_room row.now }
{
    let space = write_data(bytes, start, &offset_bytes(row.offset));
    let shown = write_word(bytes, space, b" ");
    let end = write_data(bytes, shown, row.bytes);
    write_word(bytes, end, b"\n")
}

impl Piece for RowLine<'_> {
    ghost text = { row_text };

    ghost most = { row_room };

    ghost writable = { IsRow };

    #[inline(always)]
    fn most(&self) -> usize {
        10 + 2 * self.bytes.len()
    }

    #[inline(always)]
    fn write_at(&self, bytes: &mut [u8], start: usize) -> usize {
        write_row(bytes, start, self)
    }
}
