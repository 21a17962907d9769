// The words of a call at a hop with its answer. They are looked up and not written one after the other, since which call
// comes next can't be foretold, and a branch that is foretold badly costs more than the words.
ghost use Rattle.std.specs.Prelude.{◌≡◌, ◌+◌, ◌<◌, ◌≤◌, ◌++◌, length, codes};
ghost use Rattle.report_model.specs.Report.{what_words};
ghost use Rattle.tlm_model.specs.Text.{line_of};
ghost use Rattle.tlm_types.specs.declared.entry.What.TheVariants.{Call};
ghost use Rattle.line_text.specs.CallText.{answer_number, phase_number};
ghost use Rattle.line_text.specs.Pieces.{Adds};

use crate::pieces::write_word;
use tlm_types::{Phase, TlmSync};

// How many bytes a row takes. Spaces fill it.
const ROW: usize = 32;

// How many rows there are: six answers to each of four phases.
const ROWS: usize = 24;

// The words of each call, after a space and with the end of the line: for each answer, those of each phase.
static CALLS: [[u8; ROW]; ROWS] = [
    *b" BEGIN_REQ ACCEPTED\n            ",
    *b" END_REQ ACCEPTED\n              ",
    *b" BEGIN_RESP ACCEPTED\n           ",
    *b" END_RESP ACCEPTED\n             ",
    *b" BEGIN_REQ UPDATED BEGIN_REQ\n   ",
    *b" END_REQ UPDATED BEGIN_REQ\n     ",
    *b" BEGIN_RESP UPDATED BEGIN_REQ\n  ",
    *b" END_RESP UPDATED BEGIN_REQ\n    ",
    *b" BEGIN_REQ UPDATED END_REQ\n     ",
    *b" END_REQ UPDATED END_REQ\n       ",
    *b" BEGIN_RESP UPDATED END_REQ\n    ",
    *b" END_RESP UPDATED END_REQ\n      ",
    *b" BEGIN_REQ UPDATED BEGIN_RESP\n  ",
    *b" END_REQ UPDATED BEGIN_RESP\n    ",
    *b" BEGIN_RESP UPDATED BEGIN_RESP\n ",
    *b" END_RESP UPDATED BEGIN_RESP\n   ",
    *b" BEGIN_REQ UPDATED END_RESP\n    ",
    *b" END_REQ UPDATED END_RESP\n      ",
    *b" BEGIN_RESP UPDATED END_RESP\n   ",
    *b" END_RESP UPDATED END_RESP\n     ",
    *b" BEGIN_REQ COMPLETED\n           ",
    *b" END_REQ COMPLETED\n             ",
    *b" BEGIN_RESP COMPLETED\n          ",
    *b" END_RESP COMPLETED\n            ",
];

// How many bytes of each row are words.
static LENGTHS: [u8; ROWS] = [
    20, 18, 21, 19, 29, 27, 30, 28, 27, 25, 28, 26, 30, 28, 31, 29, 28, 26, 29, 27, 21, 19, 22, 20,
];

#[inline(always)]
fn phase_number(phase: Phase) -> usize
    ensures number { result ≡ phase_number phase }
    ensures few { result < 4 }
{
    match phase {
        Phase::BeginReq => 0,
        Phase::EndReq => 1,
        Phase::BeginResp => 2,
        Phase::EndResp => 3,
    }
}

#[inline(always)]
fn answer_number(answer: TlmSync) -> usize
    ensures number { result ≡ answer_number answer }
    ensures few { result < 6 }
{
    match answer {
        TlmSync::Accepted => 0,
        TlmSync::Updated(phase) => 1 + phase_number(phase),
        TlmSync::Completed => 5,
    }
}

/// Writes a call with its answer, after a space and with the end of the line.
#[inline(always)]
pub fn write_call(bytes: &mut [u8], start: usize, phase: Phase, answer: TlmSync) -> usize
    requires { start + 32 ≤ length bytes.old }
    ensures adds { Adds bytes.old bytes.new start result (codes " " ++ line_of (what_words (Call phase answer))) }
    ensures within { result ≤ start + 32 }
{
    let row = 4 * answer_number(answer) + phase_number(phase);
    write_word(bytes, start, &CALLS[row]);
    start + LENGTHS[row] as usize
}
