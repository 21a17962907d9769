// The lines of the bytes of memories.
ghost use Rattle.std.specs.Prelude.{◌≡◌, ◌+◌, ◌/◌, ◌≤◌, ◌∷◌, [], length, codes};
ghost use Rattle.std.specs.Fmt.{decimal};
ghost use Rattle.report_model.specs.Report.{memory_lines, row_lines, rows_from};
ghost use Rattle.tlm_model.specs.Text.{line_of};
ghost use Rattle.trace_print.specs.Putting.{Puts, page};
ghost use Rattle.trace_print.specs.Told.{HaveSizes, stores_lines, text_of};

use crate::line::{Line, end_line, put, put_whole};
use crate::words::{put_number, put_text};
use lane_copy::is_zero;
use line_text::RowLine;
use outside::Sink;
use tlm_model::MemoryRow;
use tlm_types::Bytes;

// The line of 16 bytes, or of fewer at a memory's end, unless they are all zeros.
fn put_row<K: Sink>(out: &mut K, line: &mut Line, offset: usize, row: &[u8])
    requires { length row.now ≤ 16 }
    ensures { Puts (page (K.taken out.old) (K.faults out.old) line.old)
        (page (K.taken out.new) (K.faults out.new) line.new) (text_of (row_lines offset row.now)) }
{
    if is_zero(row) {
        return;
    }
    put_whole(out, line, &RowLine { offset, bytes: row });
}

/// Puts the lines of the rows of a memory's bytes.
pub fn put_rows<K: Sink>(out: &mut K, line: &mut Line, bytes: &[u8])
    ensures { Puts (page (K.taken out.old) (K.faults out.old) line.old)
        (page (K.taken out.new) (K.faults out.new) line.new)
        (text_of (rows_from ((length bytes.now + 15) / 16) 0 bytes.now)) }
{
    for k in 0..bytes.len().div_ceil(16) {
        let start = 16 * k;
        let len = (bytes.len() - start).min(16);
        put_row(out, line, start, &bytes[start..start + len]);
    }
}

// The line of a memory's name and size.
fn put_size<K: Sink>(out: &mut K, line: &mut Line, row: &MemoryRow)
    ensures { Puts (page (K.taken out.old) (K.faults out.old) line.old)
        (page (K.taken out.new) (K.faults out.new) line.new)
        (line_of (codes "memory" ∷ row.now.name ∷ decimal row.now.traits.size ∷ [])) }
{
    put(out, line, b"memory ");
    put_text(out, line, row.name.as_text());
    put(out, line, b" ");
    put_number(out, line, row.traits.size);
    end_line(out, line);
}

/// Puts the lines of a memory.
pub fn put_memory<K: Sink>(out: &mut K, line: &mut Line, row: &MemoryRow, bytes: &[u8])
    requires { length bytes.now ≡ row.now.traits.size }
    ensures { Puts (page (K.taken out.old) (K.faults out.old) line.old)
        (page (K.taken out.new) (K.faults out.new) line.new)
        (text_of (memory_lines row.now.name row.now.traits.size bytes.now)) }
{
    put_size(out, line, row);
    put_rows(out, line, bytes);
}

/// Puts the lines of each memory, with its bytes, in order.
pub fn put_memories<K: Sink>(out: &mut K, line: &mut Line, rows: &[MemoryRow], stores: &[Bytes])
    requires { HaveSizes rows.now stores.now }
    ensures { Puts (page (K.taken out.old) (K.faults out.old) line.old)
        (page (K.taken out.new) (K.faults out.new) line.new) (text_of (stores_lines rows.now stores.now)) }
{
    for number in 0..rows.len() {
        put_memory(out, line, &rows[number], stores[number].as_slice());
    }
}
