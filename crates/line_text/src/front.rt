// What the line of each entry begins with.
ghost use Rattle.std.specs.Prelude.{◌+◌, ◌≤◌, length};
ghost use Rattle.line_text.specs.FrontText.{front_text, IsFrontReady};
ghost use Rattle.line_text.specs.Pieces.{Adds};

use crate::numbering::Numbering;
use crate::pieces::write_count;
use tlm_types::Head;

/// The position, the time and the transaction of an entry, with the words and digits that are at hand for them.
#[derive(Clone, Copy)]
pub struct Front<'a> {
    pub head: Head,
    pub positions: &'a Numbering,
    pub txns: &'a Numbering,
}

/// Writes them, each with a space after it.
#[inline(always)]
pub fn write_front(bytes: &mut [u8], start: usize, front: Front<'_>) -> usize
    requires ready { IsFrontReady front }
    requires room { start + 123 ≤ length bytes.old }
    ensures adds { Adds bytes.old bytes.new start result (front_text front.entry) }
    ensures within { result ≤ start + 123 }
{
    let time = front.positions.write(bytes, start, front.head.position);
    let txn = write_count(bytes, time, front.head.time);
    front.txns.write(bytes, txn, front.head.txn.seq)
}
