// The log of an object: its entries in order, kept without a list of bytes for each.
ghost use Rattle.std.specs.Prelude.{◌≡◌, ◌≢◌, ◌+◌, ◌^◌, ◌<◌, ◌≤◌, [], ◌++◌, length, true, false, All, Ok, Some, IsOk, IsSome, IsSomeAnd, IfSome, IfOk, IfErr, OnOk, OnErr, IsTrue, ◌↔◌, slice_get, slice_range, option_map, vec_len, vec_capacity};
ghost use Rattle.entry_log.specs.LogBytes.{HasParts, IsLast, Reads};
ghost use Rattle.log_items.specs.Items.{brief_what, IsOrdered};
ghost use Rattle.tlm_types.specs.Entries.{access_by, enables_of, entry_at, facts_of, got_of, head_of, is_access, plain_of, read_at, read_sends, sent_of};
ghost use Rattle.entry_log.specs.Log.{with_entry};
ghost use Rattle.tlm_types.specs.declared.words.Command.TheVariants.{Read};

mod past;

use log_items::{BriefEvent, Items, PlacedAccess, Span, WORD, copied_head, plain_event};
use past::Past;
use std::alloc::Global;
use std::marker::Model;
use tlm_types::{Facts, Head, Memory, What};

/// An access of a log, with its bytes. What a read sent isn't kept, so of a read `sent` says nothing.
#[derive(Clone, Copy)]
pub struct LoggedAccess<'a> {
    pub head: Head,
    pub facts: Facts,
    pub sent: &'a [u8],
    pub enables: &'a [u8],
    pub got: &'a [u8],
}

/// The log of an object: its entries in order. Contracts see the list of them, with the room that was
/// made for entries and for the bytes of accesses, and whether all are in store: those that a log forgot
/// are known in contracts alone. A log holds less than 4 GiB of bytes: more is refused as want of
/// memory is. A large access whose bytes stand there already refers to those.
pub struct Log {
    items: Items,
    bytes: Vec<u8>,
    // Where the bytes of accesses of 64 bytes and more begin, each at a place that follows from a few of them
    // and from where the access is. It is looked whether they stand there, so that it may stay as it is where
    // a log forgets its bytes.
    starts: Vec<u32>,
    room_bytes: u64,
    past: Past,
    forgotten: u64,
    // What is pushed stays in store.
    keeps: bool,
}

// Written out, so that crates above call it and needn't prove again how each part is let go of.
impl Drop for Log {
    fn drop(self) {
        let Log {
            items: _items,
            bytes: _bytes,
            starts: _starts,
            room_bytes: _,
            past: _past,
            forgotten: _,
            keeps: _,
        } = self;
    }
}

impl Model for Log {
    ghost use Rattle.std.specs.Prelude.{◌++◌, vec_capacity};
    ghost use Rattle.entry_log.specs.Log.{LogView};
    ghost use Rattle.entry_log.specs.LogBytes.{IsStored};
    ghost use Rattle.log_items.specs.Items.{entries_of};

    ghost Value = { LogView };

    ghost view = { λ l. record {
      entries = l.past.entries ++ entries_of l.bytes.items l.items.items;
      room = l.items.room;
      room_bytes = l.room_bytes;
      whole = l.keeps;
    } };

    ghost invariant = { λ l. IsStored l.keeps l.past.entries l.forgotten l.items.items l.bytes.items l.room_bytes (vec_capacity l.bytes) };
}

impl Log {
    /// An empty log with room for so many entries, and for so many bytes of the accesses among them.
    /// Its only error is want of memory.
    pub fn with_room(alloc: Global, entries: u64, bytes: u64) -> Result<Log, Memory>
        ensures { IfOk result (λ l. l ≡ record { entries = []; room = entries; room_bytes = bytes; whole = true }) }
    {
        if bytes > BYTES_MAX {
            return Err(Memory);
        }
        let items = Items::with_room(alloc, entries)?;
        let stored = Vec::with_capacity(alloc, bytes as usize)?;
        let starts = no_starts(alloc, bytes)?;
        Ok(Log {
            items,
            bytes: stored,
            starts,
            room_bytes: bytes,
            past: Past::none(),
            forgotten: 0,
            keeps: true,
        })
    }

    /// How many entries there are. Each has one of the times that there are.
    pub fn len(&self) -> u64
        ensures len { result ≡ length self.now.entries }
        ensures timed { All (λ e. e.time < 2 ^ 64) self.now.entries }
    {
        self.forgotten + self.items.len() as u64
    }

    /// For how many entries room was made.
    pub fn room(&self) -> u64
        ensures { result ≡ self.now.room }
    {
        self.items.room()
    }

    /// For how many more bytes of accesses there is room.
    pub fn room_bytes(&self) -> u64
        ensures { result ≡ self.now.room_bytes }
    {
        self.room_bytes
    }

    /// There is no entry.
    pub fn is_empty(&self) -> bool
        ensures { IsTrue result ↔ (self.now.entries ≡ []) }
    {
        self.len() == 0
    }

    /// All its entries are in store, so that they can be read.
    pub fn is_whole(&self) -> bool
        ensures { result ≡ self.now.whole }
    {
        self.keeps
    }

    /// Appends an entry that isn't an access. It is `Ok` where there is room for it. Its only error is
    /// want of memory, after which the log is as before.
    pub fn push(&mut self, head: Head, what: What) -> Result<(), Memory>
        requires { is_access what ≡ false }
        ensures ok { OnOk result (self.new ≡ with_entry self.old (entry_at head what)) }
        ensures err { OnErr result (self.new ≡ self.old) }
        ensures roomy { length self.old.entries < self.old.room → IsOk result }
    {
        self.items.push_event(head, plain_event(what))?;
        self.settle();
        Ok(())
    }

    /// Appends the entry of what happened at a hop or in a pool, as `push` does.
    #[inline(always)]
    pub fn push_brief(&mut self, head: Head, event: BriefEvent) -> Result<(), Memory>
        ensures ok { OnOk result (self.new ≡ with_entry self.old (entry_at head (brief_what event))) }
        ensures err { OnErr result (self.new ≡ self.old) }
        ensures roomy { length self.old.entries < self.old.room → IsOk result }
    {
        self.items.push_brief(head, event)?;
        self.settle();
        Ok(())
    }

    /// Appends the entry of an access, with the bytes that it sent, its byte enables, and a read's
    /// buffer afterwards. For a read `sent` is empty: it stands for as many zeros as the length, and in
    /// a debug read for no byte. It is `Ok` where there is room for the entry and for the bytes.
    /// Its only error is want of memory, after which the log is as before.
    #[inline(always)]
    pub fn push_access(
        &mut self,
        head: Head,
        facts: Facts,
        sent: &[u8],
        enables: &[u8],
        got: &[u8],
    ) -> Result<(), Memory>
        requires { facts.command ≡ Read → sent.now ≡ [] }
        ensures ok { OnOk result (self.new ≡ with_entry self.old
            (entry_at head (access_by facts sent.now enables.now got.now))) }
        ensures err { OnErr result (self.new ≡ self.old) }
        ensures roomy { length self.old.entries < self.old.room →
            length sent.now + length enables.now + length got.now ≤ self.old.room_bytes → IsOk result }
    {
        if facts.length >= LARGE {
            return self.push_large(copied_head(&head), copied_facts(&facts), sent, enables, got);
        }
        if facts.length <= WORD as u64 && self.push_word(head, facts, sent, enables, got)? {
            self.settle();
            return Ok(());
        }
        if facts.length < MIDDLE || !self.keeps {
            self.push_new(head, facts, sent, enables, got)?;
            self.settle();
            return Ok(());
        }
        let place = middle_place(facts.offset, sent, got);
        self.push_once(place, head, facts, sent, enables, got)
    }

    // Appends an access. Where its bytes stand already, as this place says, it refers to those.
    #[inline(always)]
    fn push_once(
        &mut self,
        place: usize,
        head: Head,
        facts: Facts,
        sent: &[u8],
        enables: &[u8],
        got: &[u8],
    ) -> Result<(), Memory>
        requires { facts.command ≡ Read → sent.now ≡ [] }
        ensures ok { OnOk result (self.new ≡ with_entry self.old
            (entry_at head (access_by facts sent.now enables.now got.now))) }
        ensures err { OnErr result (self.new ≡ self.old) }
        ensures roomy { length self.old.entries < self.old.room →
            length sent.now + length enables.now + length got.now ≤ self.old.room_bytes → IsOk result }
    {
        if self.push_again(place, head, facts, sent, enables, got)? {
            return Ok(());
        }
        let start = self.bytes.len() as u32;
        self.push_new(head, facts, sent, enables, got)?;
        self.note(place, start);
        Ok(())
    }

    // Appends a large access. Where its bytes stand already it refers to those: to write to memory for the
    // first time takes as long as all the rest. A log that keeps nothing writes to the same memory again.
    #[inline(never)]
    fn push_large(
        &mut self,
        head: Head,
        facts: Facts,
        sent: &[u8],
        enables: &[u8],
        got: &[u8],
    ) -> Result<(), Memory>
        requires { facts.command ≡ Read → sent.now ≡ [] }
        ensures ok { OnOk result (self.new ≡ with_entry self.old
            (entry_at head (access_by facts sent.now enables.now got.now))) }
        ensures err { OnErr result (self.new ≡ self.old) }
        ensures roomy { length self.old.entries < self.old.room →
            length sent.now + length enables.now + length got.now ≤ self.old.room_bytes → IsOk result }
    {
        if !self.keeps {
            self.push_new(head, facts, sent, enables, got)?;
            self.forget();
            return Ok(());
        }
        let place = place_of(facts.offset, sent, enables, got);
        self.push_once(place, head, facts, sent, enables, got)
    }

    // Appends an access whose bytes stand where this place says, and answers whether they do.
    #[inline(always)]
    fn push_again(
        &mut self,
        place: usize,
        head: Head,
        facts: Facts,
        sent: &[u8],
        enables: &[u8],
        got: &[u8],
    ) -> Result<bool, Memory>
        requires { facts.command ≡ Read → sent.now ≡ [] }
        ensures again { result ≡ Ok true → self.new ≡ with_entry self.old
            (entry_at head (access_by facts sent.now enables.now got.now)) }
        ensures not { result ≡ Ok false → self.new ≡ self.old }
        ensures err { OnErr result (self.new ≡ self.old) }
        ensures roomy { length self.old.entries < self.old.room → IsOk result }
    {
        let Some(start) = self.starts.get(place) else {
            return Ok(false);
        };
        let Some(span) = span_from(&self.bytes, *start, sent, enables, got) else {
            return Ok(false);
        };
        self.items.push_access(head, facts, span)?;
        let count = (span.end - span.start) as u64;
        self.room_bytes = self.room_bytes.saturating_sub(count);
        Ok(true)
    }

    // Appends an access whose bytes fit into its item, and answers whether they do.
    #[inline(always)]
    fn push_word(
        &mut self,
        head: Head,
        facts: Facts,
        sent: &[u8],
        enables: &[u8],
        got: &[u8],
    ) -> Result<bool, Memory>
        requires { facts.command ≡ Read → sent.now ≡ [] }
        ensures word { result ≡ Ok true → self.new ≡ with_entry self.old
            (entry_at head (access_by facts sent.now enables.now got.now)) }
        ensures not { result ≡ Ok false → self.new ≡ self.old }
        ensures err { OnErr result (self.new ≡ self.old) }
        ensures roomy { length self.old.entries < self.old.room → IsOk result }
    {
        let is_word = self.items.push_word(head, facts, sent, enables, got)?;
        if is_word {
            self.room_bytes = self.room_bytes.saturating_sub(facts.length);
        }
        Ok(is_word)
    }

    // Appends an access with its bytes.
    #[inline(always)]
    fn push_new(
        &mut self,
        head: Head,
        facts: Facts,
        sent: &[u8],
        enables: &[u8],
        got: &[u8],
    ) -> Result<(), Memory>
        requires { facts.command ≡ Read → sent.now ≡ [] }
        ensures ok { OnOk result (self.new ≡ with_entry self.old
            (entry_at head (access_by facts sent.now enables.now got.now))) }
        ensures err { OnErr result (self.new ≡ self.old) }
        ensures roomy { length self.old.entries < self.old.room →
            length sent.now + length enables.now + length got.now ≤ self.old.room_bytes → IsOk result }
    {
        let span = span_after(self.bytes.len(), sent.len(), enables.len(), got.len())?;
        let count = (span.end - span.start) as usize;
        reserve_beyond(&mut self.bytes, self.room_bytes, count)?;
        self.items.push_access(head, facts, span)?;
        append(&mut self.bytes, sent, enables, got);
        self.room_bytes = self.room_bytes.saturating_sub(count as u64);
        Ok(())
    }

    // Notes that bytes of this place begin there.
    #[inline(always)]
    fn note(&mut self, place: usize, start: u32)
        ensures { self.new ≡ self.old }
    {
        if place < self.starts.len() {
            self.starts[place] = start;
        }
    }

    /// An entry without what happened.
    #[inline(always)]
    pub fn head(&self, index: u64) -> Head
        requires whole { self.now.whole ≡ true }
        requires index { index < length self.now.entries }
        ensures { option_map head_of (slice_get self.now.entries index) ≡ Some result }
    {
        self.items.head(index as usize)
    }

    /// What happened, and for an access none.
    pub fn what(&self, index: u64) -> Option<What>
        requires whole { self.now.whole ≡ true }
        requires index { index < length self.now.entries }
        ensures { result ≡ read_at plain_of self.now.entries index }
    {
        self.items.what(index as usize)
    }

    /// An entry of a hop or a pool in the brief form, where it is kept so.
    #[inline(always)]
    pub fn brief(&self, index: u64) -> Option<(Head, BriefEvent)>
        requires { self.now.whole ≡ true }
        ensures { IfSome result (λ r. slice_get self.now.entries index ≡ Some (entry_at r.0 (brief_what r.1))) }
    {
        self.items.brief(index as usize)
    }

    /// The plain parts of an access, and for any other entry none.
    #[inline(always)]
    pub fn facts(&self, index: u64) -> Option<Facts>
        requires whole { self.now.whole ≡ true }
        requires index { index < length self.now.entries }
        ensures facts { result ≡ read_at facts_of self.now.entries index }

        // What a read sent isn't kept.
        ensures reads { IfSome result (λ f. f.command ≡ Read →
            read_at sent_of self.now.entries index ≡ Some (read_sends f.way f.length)) }
    {
        self.items.facts(index as usize)
    }

    /// The access at this index with all that is kept of it, and for any other entry none.
    #[inline(always)]
    pub fn access(&self, index: u64) -> Option<LoggedAccess<'_>>
        requires whole { self.now.whole ≡ true }
        requires index { index < length self.now.entries }
        ensures facts { option_map (λ a. a.facts) result ≡ read_at facts_of self.now.entries index }
        ensures head { IfSome result (λ a. option_map head_of (slice_get self.now.entries index) ≡ Some a.head) }
        ensures sent { IfSome result (λ a. a.facts.command ≢ Read → read_at sent_of self.now.entries index ≡ Some a.sent.now) }

        // What a read sent isn't kept.
        ensures reads { IfSome result (λ a. a.facts.command ≡ Read →
            read_at sent_of self.now.entries index ≡ Some (read_sends a.facts.way a.facts.length)) }
        ensures enables { IfSome result (λ a. read_at enables_of self.now.entries index ≡ Some a.enables.now) }
        ensures got { IfSome result (λ a. read_at got_of self.now.entries index ≡ Some a.got.now) }
    {
        self.read(index as usize)
    }

    // The access at this index with its bytes, which stand in its item or among those of all accesses.
    #[inline(always)]
    fn read(&self, index: usize) -> Option<LoggedAccess<'_>>
        requires whole { self.now.whole ≡ true }
        requires index { index < length self.now.entries }
        ensures { Reads self.now.entries index result }
    {
        let (access, own) = self.items.access(index)?;
        let bytes = self.bytes.as_slice();
        Some(match own {
            Some(own) => logged(access, own),
            None => logged(access, bytes),
        })
    }

    /// The bytes that an access sent, which isn't a read.
    pub fn sent(&self, index: u64) -> &[u8]
        requires whole { self.now.whole ≡ true }
        requires access { IsSomeAnd (read_at facts_of self.now.entries index) (λ f. f.command ≢ Read) }
        ensures { read_at sent_of self.now.entries index ≡ Some result.now }
    {
        match self.access(index) {
            Some(access) => access.sent,
            None => &[],
        }
    }

    /// The byte enables of an access.
    pub fn enables(&self, index: u64) -> &[u8]
        requires whole { self.now.whole ≡ true }
        requires access { IsSome (read_at facts_of self.now.entries index) }
        ensures { read_at enables_of self.now.entries index ≡ Some result.now }
    {
        match self.access(index) {
            Some(access) => access.enables,
            None => &[],
        }
    }

    /// A read's buffer after the access, or what a debug read moved.
    pub fn got(&self, index: u64) -> &[u8]
        requires whole { self.now.whole ≡ true }
        requires access { IsSome (read_at facts_of self.now.entries index) }
        ensures { read_at got_of self.now.entries index ≡ Some result.now }
    {
        match self.access(index) {
            Some(access) => access.got,
            None => &[],
        }
    }
}

// The access whose parts stand there among these bytes.
#[inline(always)]
fn logged<'a>(access: PlacedAccess, bytes: &'a [u8]) -> LoggedAccess<'a>
    requires ordered { IsOrdered access.span }
    requires within { access.span.end ≤ length bytes.now }
    ensures plain { (result.head ≡ access.head) × (result.facts ≡ access.facts) }
    ensures sent { result.sent.now ≡ slice_range bytes.now access.span.start access.span.enables_start }
    ensures enables { result.enables.now ≡ slice_range bytes.now access.span.enables_start access.span.got_start }
    ensures got { result.got.now ≡ slice_range bytes.now access.span.got_start access.span.end }
{
    let span = access.span;
    LoggedAccess {
        head: access.head,
        facts: access.facts,
        sent: &bytes[span.start as usize..span.enables_start as usize],
        enables: &bytes[span.enables_start as usize..span.got_start as usize],
        got: &bytes[span.got_start as usize..span.end as usize],
    }
}

// How many bytes of accesses a log holds at most.
const BYTES_MAX: u64 = 0xffff_ffff;

// An access of so many bytes is a large one.
const LARGE: u64 = 512;

// One of so many is a middle one: below, to look for its bytes takes as long as to write them.
const MIDDLE: u64 = 64;

// The parts of a large access are handed on as copies, as its head is, so what small ones come with stays in registers.
#[inline(always)]
fn copied_facts(facts: &Facts) -> Facts
    ensures { result ≡ facts.now }
{
    Facts {
        way: facts.way,
        command: facts.command,
        offset: facts.offset,
        length: facts.length,
        width: facts.width,
        status: facts.status,
    }
}

// A log with room for so many bytes notes where those of large and middle accesses begin.
const NOTED_MIN: u64 = 0x1_0000;

// At how many places.
const SLOTS: usize = 8192;

// An odd number by which the upper bits of a product depend on all bits of the other factor.
const MIX: u64 = 0x9e37_79b9_7f4a_7c15;

// What a new log with room for so many bytes has noted: nothing, for which any place will do, since an
// access looks whether its bytes stand there.
fn no_starts(alloc: Global, room: u64) -> Result<Vec<u32>, Memory> {
    let places = if room < NOTED_MIN { 0 } else { SLOTS };
    Ok(vec![in alloc; 0u32; places]?)
}

// The place at which it is noted where these bytes begin. It depends on a few of them alone, and not on
// which part they are: what was written at an offset and is read then has the same place.
fn place_of(offset: u64, sent: &[u8], enables: &[u8], got: &[u8]) -> usize {
    let few = few_of(sent)
        .wrapping_add(few_of(enables))
        .wrapping_add(few_of(got));
    let mixed = offset.wrapping_add(few).wrapping_mul(MIX);
    (mixed >> 48) as usize % SLOTS
}

// The place of a middle access: what it sent or got mostly follows from where, and else from the first byte.
#[inline(always)]
fn middle_place(offset: u64, sent: &[u8], got: &[u8]) -> usize {
    let first = first_of(sent).wrapping_add(first_of(got));
    let place = (offset / MIDDLE).wrapping_add(first << 10);
    place as usize % SLOTS
}

#[inline(always)]
fn first_of(part: &[u8]) -> u64 {
    match part.first() {
        Some(first) => *first as u64,
        None => 0,
    }
}

// The first, the middle and the last byte, with how many there are: most parts that differ have another
// number.
fn few_of(part: &[u8]) -> u64 {
    let Some(last) = part.len().checked_sub(1) else {
        return 0;
    };
    let first = part[0] as u64;
    let middle = (part[last / 2] as u64) << 8;
    let end = (part[last] as u64) << 16;
    first | middle | end | (last as u64) << 24
}

// Where these bytes of an access stand, if they do from `start` on.
#[inline(always)]
fn span_from(bytes: &[u8], start: u32, sent: &[u8], enables: &[u8], got: &[u8]) -> Option<Span>
    ensures { IfSome result (HasParts bytes.now sent.now enables.now got.now) }
{
    let span = span_after(start as usize, sent.len(), enables.len(), got.len()).ok()?;
    if span.end as usize > bytes.len() {
        return None;
    }
    if !is_part(bytes, span.start, span.enables_start, sent)
        || !is_part(bytes, span.enables_start, span.got_start, enables)
        || !is_part(bytes, span.got_start, span.end, got)
    {
        return None;
    }
    Some(span)
}

// Between these places stand just these bytes.
#[inline(always)]
fn is_part(bytes: &[u8], from: u32, to: u32, part: &[u8]) -> bool
    requires ordered { from ≤ to }
    requires within { to ≤ length bytes.now }
    ensures { IsTrue result → slice_range bytes.now from to ≡ part.now }
{
    if part.is_empty() {
        return from == to;
    }
    &bytes[from as usize..to as usize] == part
}

// Where the bytes of an access stand that come after so many. Its only error is that they are too many.
#[inline(always)]
fn span_after(start: usize, sent: usize, enables: usize, got: usize) -> Result<Span, Memory>
    ensures ok { IfOk result (IsLast start sent enables got) }
    ensures err { IfErr result (λ _. 2 ^ 32 ≤ start + (sent + (enables + got))) }
{
    let enables_start = start.saturating_add(sent);
    let got_start = enables_start.saturating_add(enables);
    let end = got_start.saturating_add(got);
    if end as u64 > BYTES_MAX {
        return Err(Memory);
    }
    Ok(Span {
        start: start as u32,
        enables_start: enables_start as u32,
        got_start: got_start as u32,
        end: end as u32,
    })
}

// Makes room for so many more bytes: for `room` of them there is room already.
#[inline(always)]
fn reserve_beyond(bytes: &mut Vec<u8>, room: u64, count: usize) -> Result<(), Memory>
    requires { vec_len bytes.old + room ≤ vec_capacity bytes.old }
    ensures items { bytes.new.items ≡ bytes.old.items }
    ensures len { vec_len bytes.new ≡ vec_len bytes.old }
    ensures capacity { vec_capacity bytes.old ≤ vec_capacity bytes.new }
    ensures ok { OnOk result (vec_len bytes.new + count ≤ vec_capacity bytes.new) }
    ensures succeeds { count ≤ room → IsOk result }
{
    if count as u64 > room {
        bytes.reserve(count)?;
    }
    Ok(())
}

// Appends these bytes, for which there is room.
#[inline(always)]
fn append(bytes: &mut Vec<u8>, sent: &[u8], enables: &[u8], got: &[u8])
    requires { vec_len bytes.old + (length sent.now + (length enables.now + length got.now)) ≤ vec_capacity bytes.old }
    ensures items { bytes.new.items ≡ bytes.old.items ++ (sent.now ++ (enables.now ++ got.now)) }
    ensures capacity { vec_capacity bytes.old ≤ vec_capacity bytes.new }
{
    append_part(bytes, sent);
    append_part(bytes, enables);
    append_part(bytes, got);
}

// Most accesses have bytes in one part alone.
#[inline(always)]
fn append_part(bytes: &mut Vec<u8>, part: &[u8])
    requires { vec_len bytes.old + length part.now ≤ vec_capacity bytes.old }
    ensures items { bytes.new.items ≡ bytes.old.items ++ part.now }
    ensures len { vec_len bytes.new ≡ vec_len bytes.old + length part.now }
    ensures capacity { vec_capacity bytes.old ≤ vec_capacity bytes.new }
{
    if part.is_empty() {
        return;
    }
    bytes.extend_from_slice(part).unwrap();
}
