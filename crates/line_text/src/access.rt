// The line of an access without byte enables, as most lines of a trace are. It is written in one go: room is
// made once, and the place goes from word to word in a register.
ghost use Rattle.std.specs.Prelude.{◌≡◌, ◌+◌, ◌*◌, ◌≤◌, length, IsTrue};
ghost use Rattle.tlm_model.specs.Text.{data_word};
ghost use Rattle.line_text.specs.AccessText.{access_room, access_text, IsShort};
ghost use Rattle.line_text.specs.Pieces.{Adds};

use crate::front::{Front, write_front};
use crate::numbering::ShortWord;
use crate::pieces::{write_data, write_status, write_unmasked, write_word};
use outside::Piece;
use tlm_types::Facts;

/// The words of the line of an access without byte enables.
#[derive(Clone, Copy)]
pub struct AccessLine<'a> {
    pub front: Front<'a>,
    pub memory: &'a ShortWord,
    pub facts: Facts,
    pub shown: &'a [u8],
}

// How many bytes its access shows at most.
const SHOWN_MAX: usize = 4096;

// How many bytes all else takes at most.
const WORDS_MAX: usize = 299;

impl AccessLine<'_> {
    /// It shows as few bytes as the lines of a run do.
    #[inline(always)]
    pub fn is_short(&self) -> bool
        ensures { IsTrue result → length self.now.shown.now ≤ 4096 }
    {
        self.shown.len() <= SHOWN_MAX
    }
}

// The bytes that a line shows, or a dash where there are none. A loop of known length, as of 4
// bytes, is unrolled.
fn write_shown(bytes: &mut [u8], start: usize, shown: &[u8]) -> usize
    requires { start + 1 + 2 * length shown.now ≤ length bytes.old }
    ensures adds { Adds bytes.old bytes.new start result (data_word shown.now) }
    ensures within { result ≤ start + 1 + 2 * length shown.now }
{
    if shown.is_empty() {
        write_word(bytes, start, b"-")
    } else if shown.len() == 4 {
        write_data(bytes, start, &shown[..4])
    } else {
        write_data(bytes, start, shown)
    }
}

// Writes the line.
#[inline(always)]
fn write_access(bytes: &mut [u8], start: usize, line: &AccessLine<'_>) -> usize
    requires short { IsShort line.now }
    requires room { start + access_room line.now ≤ length bytes.old }
    ensures adds { Adds bytes.old bytes.new start result (access_text line.now) }
    ensures within { result ≤ start + access_room line.now }
{
    let memory = write_front(bytes, start, line.front);
    let asked = line.memory.write(bytes, memory);
    let shown = write_unmasked(bytes, asked, line.facts);
    let status = write_shown(bytes, shown, line.shown);
    write_status(bytes, status, line.facts.status)
}

impl Piece for AccessLine<'_> {
    ghost text = { access_text };

    ghost most = { access_room };

    ghost writable = { IsShort };

    #[inline(always)]
    fn most(&self) -> usize {
        WORDS_MAX + 2 * self.shown.len()
    }

    #[inline(always)]
    fn write_at(&self, bytes: &mut [u8], start: usize) -> usize {
        write_access(bytes, start, self)
    }
}
