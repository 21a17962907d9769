// Words that many lines have. A line copies as many bytes of them as are known at once, since to ask for their lengths
// and to write the digits of a number anew costs more.
ghost use Rattle.std.specs.Prelude.{◌≡◌, ◌+◌, ◌*◌, ◌^◌, ◌<◌, ◌≤◌, [], ◌++◌, length, IfSome, IsTrue};
ghost use Rattle.std.specs.Fmt.{decimal};
ghost use Rattle.line_text.specs.Numbering.{numbered_text, IsReady};
ghost use Rattle.line_text.specs.Pieces.{Adds};

use crate::pieces::{decimal_pair, write_bytes, write_number, write_short_decimal, write_word};
use std::marker::Model;

// How many bytes a short word has at most.
const ROOM: usize = 48;

// How many bytes the word before a number has at most: there is room for the digits of each hundred.
const WORD_MAX: usize = 28;

/// A word of up to 48 bytes.
#[derive(Drop)]
pub struct ShortWord {
    bytes: [u8; ROOM],
    len: usize,
}

impl Model for ShortWord {
    ghost use Rattle.std.specs.Prelude.{ℕ, ◌≤◌, List, take};

    ghost Value = { List ℕ };

    ghost view = { λ w. take w.len w.bytes };

    ghost invariant = { λ w. w.len ≤ 48 };
}

impl ShortWord {
    /// A word, where it is as short as that.
    pub fn of(word: &[u8]) -> Option<ShortWord>
        ensures { IfSome result (λ w. w ≡ word.now) }
    {
        if word.len() > ROOM {
            return None;
        }
        let mut bytes = [0; ROOM];
        let len = write_bytes(&mut bytes, 0, word);
        Some(ShortWord { bytes, len })
    }

    /// Writes the word.
    #[inline(always)]
    pub fn write(&self, bytes: &mut [u8], start: usize) -> usize
        requires { start + 48 ≤ length bytes.old }
        ensures adds { Adds bytes.old bytes.new start result self.now }
        ensures within { result ≤ start + 48 }
    {
        write_word(bytes, start, &self.bytes);
        start + self.len
    }
}

/// A word with a number behind it that mostly goes up by one from line to line. The digits of its hundreds are kept.
#[derive(Drop)]
pub struct Numbering {
    word: ShortWord,
    // The word with the digits of the hundreds, of which the first hundred makes no use.
    front: ShortWord,
    // The first number of the hundred.
    first: u64,
}

impl Model for Numbering {
    ghost use Rattle.std.specs.Prelude.{◌≡◌, ◌/◌, ◌%◌, ◌≤◌, ◌++◌, length};
    ghost use Rattle.std.specs.Fmt.{decimal};
    ghost use Rattle.line_text.specs.Numbering.{NumberingView};

    ghost Value = { NumberingView };

    ghost view = { λ n. record { word = n.word; hundred = n.first / 100 } };

    ghost invariant = { λ n. (n.front ≡ n.word ++ decimal (n.first / 100)) × (n.first % 100 ≡ 0)
        × (length n.word ≤ 28) };
}

// A word with the digits of a number.
fn with_digits(word: &ShortWord, number: u64) -> ShortWord
    requires { length word.now ≤ 28 }
    ensures { result ≡ word.now ++ decimal number }
{
    let mut bytes = word.bytes;
    let len = write_number(&mut bytes, word.len, number);
    ShortWord { bytes, len }
}

impl Numbering {
    /// A word with its numbers, where it has at most 28 bytes.
    pub fn of(word: &[u8]) -> Option<Numbering>
        ensures { IfSome result (λ n. n.word ≡ word.now) }
    {
        if word.len() > WORD_MAX {
            return None;
        }
        Some(Numbering::behind(ShortWord::of(word)?))
    }

    /// Numbers without a word.
    pub fn alone() -> Numbering
        ensures { result.word ≡ [] }
    {
        Numbering::behind(ShortWord {
            bytes: [0; ROOM],
            len: 0,
        })
    }

    // The numbers behind a word, of which the first hundred has no digits of hundreds.
    fn behind(word: ShortWord) -> Numbering
        requires { length word ≤ 28 }
        ensures { result.word ≡ word }
    {
        let front = with_digits(&word, 0);
        Numbering {
            word,
            front,
            first: 0,
        }
    }

    /// The digits of this number are at hand.
    #[inline(always)]
    pub fn is_ready(&self, number: u64) -> bool
        ensures { IsTrue result → IsReady self.now number }
    {
        self.first <= number && number - self.first < 100
    }

    /// Has the digits of this number at hand.
    #[inline(always)]
    pub fn turn_to(&mut self, number: u64)
        ensures { self.new.word ≡ self.old.word }
    {
        if !self.is_ready(number) {
            self.begin(number / 100);
        }
    }

    // Begins another hundred.
    #[cold]
    #[inline(never)]
    fn begin(&mut self, hundred: u64)
        requires { 100 * hundred < 2 ^ 64 }
        ensures { self.new.word ≡ self.old.word }
    {
        self.front = with_digits(&self.word, hundred);
        self.first = hundred * 100;
    }

    /// Writes the word with a number, and a space.
    #[inline(always)]
    pub fn write(&self, bytes: &mut [u8], start: usize, number: u64) -> usize
        requires ready { IsReady self.now number }
        requires room { start + 51 ≤ length bytes.old }
        ensures adds { Adds bytes.old bytes.new start result (numbered_text self.now.word number) }
        ensures within { result ≤ start + 51 }
    {
        if number < 100 {
            let digits = self.word.write(bytes, start);
            let end = write_short_decimal(bytes, digits, number);
            write_word(bytes, end, b" ")
        } else {
            let pair = self.front.write(bytes, start);
            let end = write_word(bytes, pair, &decimal_pair(number - self.first));
            write_word(bytes, end, b" ")
        }
    }
}
