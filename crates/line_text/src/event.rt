// The line of a call at a hop, or of an entry of a pool. It is written in one go, as that of a short access is.
ghost use Rattle.std.specs.Prelude.{◌≡◌, ◌+◌, ◌≤◌, ◌++◌, length, codes};
ghost use Rattle.std.specs.Fmt.{decimal};
ghost use Rattle.report_model.specs.Report.{what_words};
ghost use Rattle.tlm_model.specs.Text.{line_of};
ghost use Rattle.log_items.specs.Items.{brief_what};
ghost use Rattle.line_text.specs.EventText.{event_text, freed_text};
ghost use Rattle.line_text.specs.FrontText.{IsFrontReady};
ghost use Rattle.line_text.specs.Pieces.{Adds};

use crate::call::write_call;
use crate::front::{Front, write_front};
use crate::numbering::ShortWord;
use crate::pieces::{write_number, write_word};
use log_items::BriefEvent;
use outside::Piece;
use tlm_types::TlmSync;

/// The words of the line of a call at a hop, or of an entry of a pool.
#[derive(Clone, Copy)]
pub struct EventLine<'a> {
    pub front: Front<'a>,
    // The name of the hop or of the pool.
    pub object: &'a ShortWord,
    pub event: BriefEvent,
}

// How many bytes such a line takes at most.
const EVENT_MAX: usize = 207;

// A word with its spaces, and the number of a slot.
#[inline(always)]
fn write_slot<const N: usize>(bytes: &mut [u8], start: usize, word: &[u8; N], slot: u8) -> usize
    requires { start + N + 20 ≤ length bytes.old }
    ensures adds { Adds bytes.old bytes.new start result (word.now ++ decimal slot) }
    ensures within { result ≤ start + N + 20 }
{
    let number = write_word(bytes, start, word);
    write_number(bytes, number, slot as u64)
}

// What happened, after a space and with the end of the line.
#[inline(always)]
fn write_what(bytes: &mut [u8], start: usize, event: BriefEvent) -> usize
    requires { start + 36 ≤ length bytes.old }
    ensures adds { Adds bytes.old bytes.new start result (codes " " ++ line_of (what_words (brief_what event))) }
    ensures within { result ≤ start + 36 }
{
    match event {
        BriefEvent::Accepted { phase } => write_call(bytes, start, phase, TlmSync::Accepted),
        BriefEvent::Updated { phase, next } => {
            write_call(bytes, start, phase, TlmSync::Updated(next))
        }
        BriefEvent::Completed { phase } => write_call(bytes, start, phase, TlmSync::Completed),
        BriefEvent::Take { slot } => {
            let end = write_slot(bytes, start, b" take ", slot);
            write_word(bytes, end, b"\n")
        }
        BriefEvent::Acquire { slot } => {
            let end = write_slot(bytes, start, b" acquire ", slot);
            write_word(bytes, end, b"\n")
        }
        BriefEvent::Release { slot, freed } => {
            let end = write_slot(bytes, start, b" release ", slot);
            write_freed(bytes, end, freed)
        }
    }
}

// That a payload was freed, and the end of the line.
#[inline(always)]
fn write_freed(bytes: &mut [u8], start: usize, freed: bool) -> usize
    requires { start + 7 ≤ length bytes.old }
    ensures adds { Adds bytes.old bytes.new start result (freed_text freed) }
    ensures within { result ≤ start + 7 }
{
    if freed {
        write_word(bytes, start, b" freed\n")
    } else {
        write_word(bytes, start, b"\n")
    }
}

// Writes the line.
#[inline(always)]
fn write_event(bytes: &mut [u8], start: usize, line: &EventLine<'_>) -> usize
    requires ready { IsFrontReady line.now.front }
    requires room { start + 207 ≤ length bytes.old }
    ensures adds { Adds bytes.old bytes.new start result (event_text line.now) }
    ensures within { result ≤ start + 207 }
{
    let object = write_front(bytes, start, line.front);
    let what = line.object.write(bytes, object);
    write_what(bytes, what, line.event)
}

impl Piece for EventLine<'_> {
    ghost text = { event_text };

    ghost most = { λ _. 207 };

    ghost writable = { λ line. IsFrontReady line.front };

    #[inline(always)]
    fn most(&self) -> usize {
        EVENT_MAX
    }

    #[inline(always)]
    fn write_at(&self, bytes: &mut [u8], start: usize) -> usize {
        write_event(bytes, start, self)
    }
}
