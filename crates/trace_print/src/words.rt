// Words of the report.
ghost use Rattle.std.specs.Prelude.{◌≡◌, ◌∷◌, [], ◌++◌, codes};
ghost use Rattle.std.specs.Fmt.{decimal};
ghost use Rattle.std.specs.List.{join_with_byte};
ghost use Rattle.report_model.specs.Report.{command_word, kind_word, phase_word, range_word, style_word, sync_words};
ghost use Rattle.tlm_model.specs.Text.{address_word, data_word, hex_of};
ghost use Rattle.trace_print.specs.Putting.{Puts, page};

use crate::line::{CHUNK, Line, put, put_chunk, put_piece};
use line_text::LinePiece;
use outside::Sink;
use tlm_model::Style;
use tlm_types::{Command, Kind, Phase, TlmSync};

/// Puts a command.
pub fn put_command<K: Sink>(out: &mut K, line: &mut Line, command: Command)
    ensures { Puts (page (K.taken out.old) (K.faults out.old) line.old)
        (page (K.taken out.new) (K.faults out.new) line.new) (command_word command) }
{
    match command {
        Command::Read => put(out, line, b"read"),
        Command::Write => put(out, line, b"write"),
        Command::Ignore => put(out, line, b"ignore"),
        Command::FetchAdd => put(out, line, b"fetch_add"),
    }
}

pub fn style_text(style: Style) -> &'static str
    ensures { result.now ≡ style_word style }
{
    match style {
        Style::Blocking => "blocking",
        Style::Direct => "direct",
        Style::FourPhase => "fourphase",
    }
}

pub fn kind_text(kind: Kind) -> &'static str
    ensures { result.now ≡ kind_word kind }
{
    match kind {
        Kind::Read => "read",
        Kind::Write => "write",
        Kind::Both => "both",
    }
}

pub fn phase_text(phase: Phase) -> &'static str
    ensures { result.now ≡ phase_word phase }
{
    match phase {
        Phase::BeginReq => "BEGIN_REQ",
        Phase::EndReq => "END_REQ",
        Phase::BeginResp => "BEGIN_RESP",
        Phase::EndResp => "END_RESP",
    }
}

#[inline(always)]
pub fn put_text<K: Sink>(out: &mut K, line: &mut Line, text: &str)
    ensures { Puts (page (K.taken out.old) (K.faults out.old) line.old)
        (page (K.taken out.new) (K.faults out.new) line.new) text.now }
{
    put(out, line, text.as_bytes());
}

#[inline(always)]
pub fn put_number<K: Sink>(out: &mut K, line: &mut Line, number: u64)
    ensures { Puts (page (K.taken out.old) (K.faults out.old) line.old)
        (page (K.taken out.new) (K.faults out.new) line.new) (decimal number) }
{
    put_piece(out, line, LinePiece::Number(number));
}

/// Puts each byte as two digits.
#[inline(always)]
pub fn put_hex<K: Sink>(out: &mut K, line: &mut Line, bytes: &[u8])
    ensures { Puts (page (K.taken out.old) (K.faults out.old) line.old)
        (page (K.taken out.new) (K.faults out.new) line.new) (hex_of bytes.now) }
{
    let mut start = 0;
    while start < bytes.len() {
        let count = (bytes.len() - start).min(CHUNK);
        put_chunk(out, line, &bytes[start..start + count]);
        start += count;
    }
}

/// Puts the bytes as two digits each, or a dash where there are none.
pub fn put_data<K: Sink>(out: &mut K, line: &mut Line, bytes: &[u8])
    ensures { Puts (page (K.taken out.old) (K.faults out.old) line.old)
        (page (K.taken out.new) (K.faults out.new) line.new) (data_word bytes.now) }
{
    if bytes.is_empty() {
        put(out, line, b"-");
    } else {
        put_hex(out, line, bytes);
    }
}

/// Puts an address or an offset of an access.
pub fn put_address<K: Sink>(out: &mut K, line: &mut Line, address: u64)
    ensures { Puts (page (K.taken out.old) (K.faults out.old) line.old)
        (page (K.taken out.new) (K.faults out.new) line.new) (address_word address) }
{
    put_piece(out, line, LinePiece::Address(address));
}

/// Puts an inclusive range.
pub fn put_range<K: Sink>(out: &mut K, line: &mut Line, first: u64, last: u64)
    ensures { Puts (page (K.taken out.old) (K.faults out.old) line.old)
        (page (K.taken out.new) (K.faults out.new) line.new) (range_word first last) }
{
    put_address(out, line, first);
    put(out, line, b"-");
    put_address(out, line, last);
}

/// Puts the answer to a call.
pub fn put_sync<K: Sink>(out: &mut K, line: &mut Line, answer: TlmSync)
    ensures { Puts (page (K.taken out.old) (K.faults out.old) line.old)
        (page (K.taken out.new) (K.faults out.new) line.new) (join_with_byte 32 (sync_words answer)) }
{
    match answer {
        TlmSync::Accepted => put(out, line, b"ACCEPTED"),
        TlmSync::Updated(phase) => {
            put(out, line, b"UPDATED ");
            put_text(out, line, phase_text(phase));
        }
        TlmSync::Completed => put(out, line, b"COMPLETED"),
    }
}
