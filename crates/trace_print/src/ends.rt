// The lines of how the initiators ended.
ghost use Rattle.std.specs.Prelude.{◌≡◌, ◌∷◌, [], ◌++◌, length, map, codes};
ghost use Rattle.std.specs.Fmt.{decimal};
ghost use Rattle.std.specs.List.{join_with_byte};
ghost use Rattle.report_model.specs.Report.{ends_words, style_word};
ghost use Rattle.tlm_model.specs.Text.{line_of};
ghost use Rattle.trace_print.specs.Putting.{Puts, page};
ghost use Rattle.trace_print.specs.Told.{end_lines, ends_lines, refused_command, refused_item_words, text_of};

use crate::line::{Line, end_line, put};
use crate::names::put_seq;
use crate::words::{put_address, put_command, put_number, put_text, style_text};
use outside::Sink;
use tlm_model::InitiatorRow;
use tlm_types::{EndOf, RefusedItem, RefusedList};

// What was refused: a debug read, or the command of an access.
fn put_refused_command<K: Sink>(out: &mut K, line: &mut Line, item: RefusedItem)
    ensures { Puts (page (K.taken out.old) (K.faults out.old) line.old)
        (page (K.taken out.new) (K.faults out.new) line.new) (refused_command item) }
{
    if item.debug {
        put(out, line, b"debug");
    } else {
        put_command(out, line, item.command);
    }
}

// A refused request of the initiator with this name.
fn put_refused<K: Sink>(out: &mut K, line: &mut Line, name: &str, item: RefusedItem)
    ensures { Puts (page (K.taken out.old) (K.faults out.old) line.old)
        (page (K.taken out.new) (K.faults out.new) line.new) (line_of (refused_item_words name.now item)) }
{
    put(out, line, b"refused ");
    put_seq(out, line, name, item.seq);
    put_number(out, line, item.time);
    put(out, line, b" ");
    put_refused_command(out, line, item);
    put(out, line, b" ");
    put_address(out, line, item.address);
    end_line(out, line);
}

// What was refused to the initiator with this name, in order.
fn put_refusals<K: Sink>(out: &mut K, line: &mut Line, name: &str, refused: &RefusedList)
    ensures { Puts (page (K.taken out.old) (K.faults out.old) line.old)
        (page (K.taken out.new) (K.faults out.new) line.new)
        (text_of (map (refused_item_words name.now) refused.now.items)) }
{
    for index in 0..refused.len() {
        put_refused(out, line, name, refused.item(index));
    }
}

// A word between two spaces, and a number.
fn put_count<K: Sink>(out: &mut K, line: &mut Line, word: &[u8], count: u64)
    ensures { Puts (page (K.taken out.old) (K.faults out.old) line.old)
        (page (K.taken out.new) (K.faults out.new) line.new) (word.now ++ decimal count) }
{
    put(out, line, word);
    put_number(out, line, count);
}

// The name and the style of an initiator.
fn put_styled<K: Sink>(out: &mut K, line: &mut Line, row: &InitiatorRow)
    ensures { Puts (page (K.taken out.old) (K.faults out.old) line.old)
        (page (K.taken out.new) (K.faults out.new) line.new)
        (join_with_byte 32 (codes "initiator" ∷ row.now.name ∷ style_word row.now.style ∷ [])) }
{
    put(out, line, b"initiator ");
    put_text(out, line, row.name.as_text());
    put(out, line, b" ");
    put_text(out, line, style_text(row.style));
}

// How an initiator ended, without what was refused to it.
fn put_end<K: Sink>(out: &mut K, line: &mut Line, row: &InitiatorRow, end: &EndOf)
    ensures { Puts (page (K.taken out.old) (K.faults out.old) line.old)
        (page (K.taken out.new) (K.faults out.new) line.new)
        (line_of (ends_words row.now.name row.now.style end.now.transactions (length end.now.refused.items)
        end.now.syncs end.now.end)) }
{
    put_styled(out, line, row);
    put_count(out, line, b" transactions ", end.transactions);
    put_count(out, line, b" refused ", end.refused.len() as u64);
    put_count(out, line, b" syncs ", end.syncs);
    put_count(out, line, b" end ", end.end);
    end_line(out, line);
}

/// Puts the lines of an initiator.
pub fn put_initiator<K: Sink>(out: &mut K, line: &mut Line, row: &InitiatorRow, end: &EndOf)
    ensures { Puts (page (K.taken out.old) (K.faults out.old) line.old)
        (page (K.taken out.new) (K.faults out.new) line.new) (text_of (end_lines row.now end.now)) }
{
    put_end(out, line, row, end);
    put_refusals(out, line, row.name.as_text(), &end.refused);
}

/// Puts the lines of each initiator, as it ended, in order.
pub fn put_initiators<K: Sink>(out: &mut K, line: &mut Line, rows: &[InitiatorRow], ends: &[EndOf])
    requires { length ends.now ≡ length rows.now }
    ensures { Puts (page (K.taken out.old) (K.faults out.old) line.old)
        (page (K.taken out.new) (K.faults out.new) line.new) (text_of (ends_lines rows.now ends.now)) }
{
    for number in 0..rows.len() {
        put_initiator(out, line, &rows[number], &ends[number]);
    }
}
