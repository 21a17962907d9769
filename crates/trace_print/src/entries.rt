// The lines of the entries of a history.
ghost use Rattle.std.specs.Prelude.{◌≡◌, ◌<◌, ◌∷◌, [], ◌++◌, Some, IfSome, IfNone, length, slice_get, map, codes, true, false, if◌then◌else◌};
ghost use Rattle.std.specs.Fmt.{decimal};
ghost use Rattle.std.specs.List.{join_with_byte};
ghost use Rattle.tlm_types.specs.declared.entry.Entry.{Entry};
ghost use Rattle.tlm_types.specs.declared.entry.What.TheVariants.{Granted, Call, Invalidated, Release};
ghost use Rattle.report_model.specs.Report.{entry_words, has_operand, operand_text, traced, txn_word, what_words};
ghost use Rattle.tlm_types.specs.Entries.{entry_at, is_access};
ghost use Rattle.tlm_model.specs.Text.{line_of};
ghost use Rattle.tlm_model.specs.declared.trace.Trace.TheVariants as Traces;
ghost use Rattle.run_outcome.specs.Places.{MergedView};
ghost use Rattle.line_text.specs.AccessText.{access_text, IsShort};
ghost use Rattle.line_text.specs.EventText.{event_text};
ghost use Rattle.line_text.specs.FrontText.{IsFrontReady};
ghost use Rattle.log_items.specs.Items.{brief_what};
ghost use Rattle.trace_print.specs.Hops.{ends_at, object_word_by};
ghost use Rattle.trace_print.specs.Putting.{Puts, page};
ghost use Rattle.trace_print.specs.Told.{access_words, shown_of, text_of};

use crate::line::{Line, flush, put, put_piece, put_whole};
use crate::names::{Names, ends_at, put_object, put_txn};
use crate::words::{kind_text, phase_text, put_data, put_number, put_range, put_sync, put_text};
use entry_log::{Log, LoggedAccess};
use line_text::{AccessLine, EventLine, LinePiece};
use log_items::BriefEvent;
use outside::Sink;
use route_plan::HopEnds;
use run_outcome::LogReader;
use tlm_model::{Platform, Trace};
use tlm_types::{Command, Facts, Head, Kind, ObjectNo, Phase, TlmSync, What};

// The position, the time, the transaction and the object of an entry.
#[inline(always)]
fn put_head<K: Sink>(
    out: &mut K,
    line: &mut Line,
    platform: &Platform,
    head: Head,
    ends: Option<HopEnds>,
)
    ensures { Puts (page (K.taken out.old) (K.faults out.old) line.old)
        (page (K.taken out.new) (K.faults out.new) line.new)
        (join_with_byte 32 (decimal head.position ∷ decimal head.time ∷ txn_word platform.now head.txn
        ∷ object_word_by platform.now head.object ends ∷ [])) }
{
    let times = LinePiece::Times {
        position: head.position,
        time: head.time,
    };
    put_piece(out, line, times);
    put_txn(out, line, platform, head.txn);
    put_object(out, line, platform, head.object, ends);
}

fn has_operand(command: Command) -> bool
    ensures { result ≡ has_operand command }
{
    match command {
        Command::Read | Command::Write | Command::Ignore => false,
        Command::FetchAdd => true,
    }
}

// The operand of a fetch_add, of the bytes that an access sent, and a colon.
#[inline(always)]
fn put_operand<K: Sink>(out: &mut K, line: &mut Line, command: Command, sent: &[u8])
    ensures { Puts (page (K.taken out.old) (K.faults out.old) line.old)
        (page (K.taken out.new) (K.faults out.new) line.new) (operand_text command sent.now) }
{
    if has_operand(command) {
        put_data(out, line, sent);
        put(out, line, b":");
    }
}

// What an access was, from its plain parts, its enables, and the bytes that it sent and that its line
// shows, after a space and with the end of the line.
#[inline(always)]
fn put_access<K: Sink>(
    out: &mut K,
    line: &mut Line,
    facts: Facts,
    enables: &[u8],
    sent: &[u8],
    shown: &[u8],
)
    ensures { Puts (page (K.taken out.old) (K.faults out.old) line.old)
        (page (K.taken out.new) (K.faults out.new) line.new)
        (codes " " ++ line_of (access_words facts enables.now (operand_text facts.command sent.now) shown.now)) }
{
    put_piece(out, line, LinePiece::Asked(facts));
    put_data(out, line, enables);
    put_piece(out, line, LinePiece::Width(facts.width));
    put_operand(out, line, facts.command, sent);
    put_data(out, line, shown);
    put_piece(out, line, LinePiece::Status(facts.status));
}

// The bytes that the line of an access shows.
#[inline(always)]
fn shown<'a>(access: &LoggedAccess<'a>) -> &'a [u8]
    ensures { result.now ≡ shown_of access.now.facts.command access.now.sent.now access.now.got.now }
{
    match access.facts.command {
        Command::Read => access.got,
        Command::Write => access.sent,
        Command::Ignore => &[],
        Command::FetchAdd => access.got,
    }
}

fn put_granted<K: Sink>(out: &mut K, line: &mut Line, gate: u32, first: u64, last: u64, kind: Kind)
    ensures { Puts (page (K.taken out.old) (K.faults out.old) line.old)
        (page (K.taken out.new) (K.faults out.new) line.new)
        (join_with_byte 32 (what_words (Granted gate first last kind))) }
{
    put_slot(out, line, b"granted ", gate);
    put(out, line, b" ");
    put_range(out, line, first, last);
    put(out, line, b" ");
    put_text(out, line, kind_text(kind));
}

fn put_call<K: Sink>(out: &mut K, line: &mut Line, phase: Phase, answer: TlmSync)
    ensures { Puts (page (K.taken out.old) (K.faults out.old) line.old)
        (page (K.taken out.new) (K.faults out.new) line.new)
        (join_with_byte 32 (what_words (Call phase answer))) }
{
    put_text(out, line, phase_text(phase));
    put(out, line, b" ");
    put_sync(out, line, answer);
}

// A word with its space, and the number of a slot or a gate.
fn put_slot<K: Sink>(out: &mut K, line: &mut Line, word: &[u8], slot: u32)
    ensures { Puts (page (K.taken out.old) (K.faults out.old) line.old)
        (page (K.taken out.new) (K.faults out.new) line.new) (word.now ++ decimal slot) }
{
    put(out, line, word);
    put_number(out, line, slot as u64);
}

// A slot that was released, and whether its payload was freed.
fn put_released<K: Sink>(out: &mut K, line: &mut Line, slot: u32, freed: bool)
    ensures { Puts (page (K.taken out.old) (K.faults out.old) line.old)
        (page (K.taken out.new) (K.faults out.new) line.new)
        (join_with_byte 32 (what_words (Release slot freed))) }
{
    put_slot(out, line, b"release ", slot);
    if freed {
        put(out, line, b" freed");
    }
}

fn put_invalidated<K: Sink>(out: &mut K, line: &mut Line, first: u64, last: u64)
    ensures { Puts (page (K.taken out.old) (K.faults out.old) line.old)
        (page (K.taken out.new) (K.faults out.new) line.new)
        (join_with_byte 32 (what_words (Invalidated first last))) }
{
    put(out, line, b"invalidated ");
    put_range(out, line, first, last);
}

// What happened, where it is no access.
fn put_no_access<K: Sink>(out: &mut K, line: &mut Line, what: &What)
    requires { is_access what.now ≡ false }
    ensures { Puts (page (K.taken out.old) (K.faults out.old) line.old)
        (page (K.taken out.new) (K.faults out.new) line.new) (join_with_byte 32 (what_words what.now)) }
{
    match what {
        What::Call { phase, answer } => put_call(out, line, *phase, *answer),
        What::Take { slot } => put_slot(out, line, b"take ", *slot),
        What::Acquire { slot } => put_slot(out, line, b"acquire ", *slot),
        What::Release { slot, freed } => put_released(out, line, *slot, *freed),
        What::Granted {
            gate,
            first,
            last,
            kind,
        } => put_granted(out, line, *gate, *first, *last, *kind),
        What::Invalidated { first, last } => put_invalidated(out, line, *first, *last),
        What::Closed { gate } => put_slot(out, line, b"closed ", *gate),
        What::Access { .. } => unreachable!(),
    }
}

// What happened, where it is no access, after a space and with the end of the line.
fn put_told<K: Sink>(out: &mut K, line: &mut Line, what: &What)
    requires { is_access what.now ≡ false }
    ensures { Puts (page (K.taken out.old) (K.faults out.old) line.old)
        (page (K.taken out.new) (K.faults out.new) line.new) (codes " " ++ line_of (what_words what.now)) }
{
    put(out, line, b" ");
    put_no_access(out, line, what);
    put(out, line, b"\n");
}

// What happened at this place of the log, after a space and with the end of the line.
#[inline(always)]
fn put_what<K: Sink>(out: &mut K, line: &mut Line, log: &Log, index: u64)
    requires whole { log.now.whole ≡ true }
    requires index { index < length log.now.entries }
    ensures { (e : Entry) → slice_get log.now.entries index ≡ Some e →
        Puts (page (K.taken out.old) (K.faults out.old) line.old)
        (page (K.taken out.new) (K.faults out.new) line.new) (codes " " ++ line_of (what_words e.what)) }
{
    if let Some(access) = log.access(index) {
        put_access(
            out,
            line,
            access.facts,
            access.enables,
            access.sent,
            shown(&access),
        );
    } else if let Some(what) = log.what(index) {
        put_told(out, line, &what);
    }
}

/// Puts the line of the entry at this place, whatever it is. The ends are given where it stands at a hop.
pub fn put_entry<K: Sink>(
    out: &mut K,
    line: &mut Line,
    platform: &Platform,
    ends: Option<HopEnds>,
    log: &Log,
    index: u64,
)
    requires whole { log.now.whole ≡ true }
    requires index { index < length log.now.entries }
    ensures { (e : Entry) → slice_get log.now.entries index ≡ Some e → ends ≡ ends_at platform.now e.object →
        Puts (page (K.taken out.old) (K.faults out.old) line.old)
        (page (K.taken out.new) (K.faults out.new) line.new) (line_of (entry_words platform.now e)) }
{
    put_head(out, line, platform, log.head(index), ends);
    put_what(out, line, log, index);
    flush(out, line);
}

/// The line of the entry at this place, where it is a short access at a memory without byte enables and
/// without an operand, and where its words and digits are at hand.
#[inline(always)]
pub fn access_line<'a>(names: &'a Names<'_>, log: &'a Log, index: u64) -> Option<AccessLine<'a>>
    requires whole { log.now.whole ≡ true }
    requires index { index < length log.now.entries }
    ensures short { IfSome result IsShort }
    ensures text { (e : Entry) → slice_get log.now.entries index ≡ Some e →
        IfSome result (λ access. access_text access ≡ line_of (entry_words names.now.platform e)) }
{
    let access = log.access(index)?;
    if !access.enables.is_empty() {
        return None;
    }
    if has_operand(access.facts.command) {
        return None;
    }
    let ObjectNo::Memory(memory) = access.head.object else {
        return None;
    };
    let line = AccessLine {
        front: names.front(access.head)?,
        memory: names.object(ObjectNo::Memory(memory))?,
        facts: access.facts,
        shown: shown(&access),
    };
    if line.is_short() { Some(line) } else { None }
}

// The line of an entry with this head, where its words and digits are at hand.
#[inline(always)]
fn event_line<'a>(names: &'a Names<'_>, head: Head, event: BriefEvent) -> Option<EventLine<'a>>
    ensures ready { IfSome result (λ line. IsFrontReady line.front) }
    ensures text { IfSome result (λ line. event_text line ≡ line_of (entry_words names.now.platform (entry_at head (brief_what event)))) }
{
    Some(EventLine {
        front: names.front(head)?,
        object: names.object(head.object)?,
        event,
    })
}

/// The line of the entry at this place, where the log has it in the brief form, as nearly all calls at hops and entries
/// of pools, and where its words and digits are at hand.
#[inline(always)]
pub fn brief_line<'a>(names: &'a Names<'_>, log: &Log, index: u64) -> Option<EventLine<'a>>
    requires { log.now.whole ≡ true }
    ensures ready { IfSome result (λ line. IsFrontReady line.front) }
    ensures text { (e : Entry) → slice_get log.now.entries index ≡ Some e →
        IfSome result (λ line. event_text line ≡ line_of (entry_words names.now.platform e)) }
{
    let (head, event) = log.brief(index)?;
    event_line(names, head, event)
}

/// The line of the entry at this place, where it is another call at a hop or entry of a pool.
pub fn other_line<'a>(names: &'a Names<'_>, log: &Log, index: u64) -> Option<EventLine<'a>>
    requires whole { log.now.whole ≡ true }
    requires index { index < length log.now.entries }
    ensures ready { IfSome result (λ line. IsFrontReady line.front) }
    ensures text { (e : Entry) → slice_get log.now.entries index ≡ Some e →
        IfSome result (λ line. event_text line ≡ line_of (entry_words names.now.platform e)) }
{
    let event = BriefEvent::of(log.what(index)?)?;
    event_line(names, log.head(index), event)
}

/// The trace shows the entry at this place.
pub fn is_shown(log: &Log, index: u64, trace: Trace) -> bool
    requires whole { log.now.whole ≡ true }
    requires index { index < length log.now.entries }
    ensures { (e : Entry) → slice_get log.now.entries index ≡ Some e → traced trace (e ∷ [])
        ≡ (if result then e ∷ [] else []) }
{
    match trace {
        Trace::All => true,
        Trace::Accesses => log.facts(index).is_some(),
        Trace::None => false,
    }
}

// Puts the line of the entry at this place, where it is no short access and not in the brief form, or has long names.
fn put_other<K: Sink>(out: &mut K, line: &mut Line, names: &Names<'_>, log: &Log, index: u64)
    requires whole { log.now.whole ≡ true }
    requires index { index < length log.now.entries }
    ensures { (e : Entry) → slice_get log.now.entries index ≡ Some e →
        Puts (page (K.taken out.old) (K.faults out.old) line.old)
        (page (K.taken out.new) (K.faults out.new) line.new) (line_of (entry_words names.now.platform e)) }
{
    if let Some(event) = other_line(names, log, index) {
        put_whole(out, line, &event);
    } else {
        let ends = ends_at(names.plan(), log.head(index).object);
        put_entry(out, line, names.platform(), ends, log, index);
    }
}

// Puts the line of the entry at this place, where its words and digits are at hand, and answers whether they are.
#[inline(always)]
fn put_kept<K: Sink>(out: &mut K, line: &mut Line, names: &Names<'_>, log: &Log, index: u64) -> bool
    requires whole { log.now.whole ≡ true }
    requires index { index < length log.now.entries }
    ensures puts { result ≡ true → (e : Entry) → slice_get log.now.entries index ≡ Some e →
        Puts (page (K.taken out.old) (K.faults out.old) line.old)
        (page (K.taken out.new) (K.faults out.new) line.new) (line_of (entry_words names.now.platform e)) }
    ensures not { result ≡ false → page (K.taken out.new) (K.faults out.new) line.new
        ≡ page (K.taken out.old) (K.faults out.old) line.old }
{
    if let Some(event) = brief_line(names, log, index) {
        put_whole(out, line, &event);
        return true;
    }
    if let Some(access) = access_line(names, log, index) {
        put_whole(out, line, &access);
        return true;
    }
    false
}

// Puts the line of the entry at this place. Of nearly all lines the digits are at hand, and of most others they are once
// they were turned to. There is one call for both, so that the compiler makes it a part of its caller.
#[inline(always)]
fn put_line<K: Sink>(out: &mut K, line: &mut Line, names: &mut Names<'_>, log: &Log, index: u64)
    requires whole { log.now.whole ≡ true }
    requires index { index < length log.now.entries }
    ensures same { names.new ≡ names.old }
    ensures puts { (e : Entry) → slice_get log.now.entries index ≡ Some e →
        Puts (page (K.taken out.old) (K.faults out.old) line.old)
        (page (K.taken out.new) (K.faults out.new) line.new) (line_of (entry_words names.old.platform e)) }
{
    for _k in 0..2 {
        if put_kept(out, line, names, log, index) {
            return;
        }
        names.turn_to(log.head(index));
    }
    put_other(out, line, names, log, index);
}

// Puts the line of the entry at this place, where the trace shows it.
#[inline(always)]
fn put_traced<K: Sink>(
    out: &mut K,
    line: &mut Line,
    names: &mut Names<'_>,
    log: &Log,
    index: u64,
    trace: Trace,
)
    requires whole { log.now.whole ≡ true }
    requires index { index < length log.now.entries }
    ensures same { names.new ≡ names.old }
    ensures puts { (e : Entry) → slice_get log.now.entries index ≡ Some e →
        Puts (page (K.taken out.old) (K.faults out.old) line.old)
        (page (K.taken out.new) (K.faults out.new) line.new)
        (text_of (map (entry_words names.old.platform) (traced trace (e ∷ [])))) }
{
    if is_shown(log, index, trace) {
        put_line(out, line, names, log, index);
    }
}

// Puts the lines of the entries that a trace shows, in order.
fn put_entries<K: Sink>(
    out: &mut K,
    line: &mut Line,
    names: &mut Names<'_>,
    reader: &mut LogReader<'_>,
    trace: Trace,
)
    ensures { Puts (page (K.taken out.old) (K.faults out.old) line.old)
        (page (K.taken out.new) (K.faults out.new) line.new)
        (text_of (map (entry_words names.old.platform) (traced trace reader.old.entries))) }
{
    for position in 0..reader.len() {
        let (log, index) = reader.at(position);
        put_traced(out, line, names, log, index, trace);
    }
}

/// Puts the lines of the entries that a trace shows, in order. There is no reader of them where it shows none.
pub fn put_shown<K: Sink>(
    out: &mut K,
    line: &mut Line,
    names: &mut Names<'_>,
    reader: Option<LogReader<'_>>,
    trace: Trace,
)
    requires { IfNone reader (trace ≡ Traces.None) }
    ensures { (log : MergedView) → IfSome reader.entry (λ r. r ≡ log) →
        Puts (page (K.taken out.old) (K.faults out.old) line.old)
        (page (K.taken out.new) (K.faults out.new) line.new)
        (text_of (map (entry_words names.old.platform) (traced trace log.entries))) }
{
    if let Some(mut reader) = reader {
        put_entries(out, line, names, &mut reader, trace);
    }
}
