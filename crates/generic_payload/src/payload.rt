// A payload, and what it asks of a memory.
ghost use Rattle.std.specs.Prelude.{◌≡◌, ◌≢◌, ◌↔◌, ◌+◌, ◌<◌, ◌≤◌, [], ◌++◌, length, take, drop, IsTrue, IfOk, true, false, vec_len, vec_capacity};
ghost use Rattle.std.specs.List.{list_all};
ghost use Rattle.generic_payload.specs.Payload.{PayloadView, new_payload, viewed, access_of, moved_by, HasPlaces, HasWord};
ghost use Rattle.tlm_types.specs.Enables.{is_enable};
ghost use Rattle.tlm_model.specs.Numbers.{le_bytes};
ghost use Rattle.tlm_model.specs.Store.{zeros, span_of, is_allowed, checked, status_by, stored_by, got_by};

use crate::stream::{stream_from, stream_into};
use crate::word::fetch_word;
use lane_copy::merge;
use std::alloc::Global;
use std::marker::Model;
use tlm_types::{Command, Memory, MemoryTraits, Response};

/// A transaction's attributes: the standard's `tlm_generic_payload` (clause 14). Addresses, lengths and the streaming width are in bytes.
// They are in a box, so that handing a payload on moves no more than a pointer.
pub struct Payload {
    attributes: Box<Attributes, Global>,
}

#[derive(Drop)]
struct Attributes {
    command: Command,
    address: u64,
    bytes: Vec<u8>,
    enables: Vec<u8>,
    width: u64,
    status: Response,
    hint: bool,
    room: u32,
}

impl Attributes {
    // Makes them those of this command, without data and enables.
    #[inline(always)]
    fn begin(&mut self, command: Command, address: u64, width: u64)
        ensures view { viewed self.new ≡ record (new_payload self.old.room) {
          command = command;
          address = address;
          width = width;
        } }
        ensures bytes { vec_capacity self.old.bytes ≤ vec_capacity self.new.bytes }
        ensures enables { vec_capacity self.old.enables ≤ vec_capacity self.new.enables }
    {
        self.command = command;
        self.address = address;
        self.bytes.clear();
        self.enables.clear();
        self.width = width;
        self.status = Response::Incomplete;
        self.hint = false;
    }
}

impl Model for Payload {
    ghost use Rattle.std.specs.Prelude.{◌≤◌, length, vec_capacity};
    ghost use Rattle.generic_payload.specs.Payload.{PayloadView, viewed, HasWord};

    ghost Value = { PayloadView };

    ghost view = { λ p. viewed p.attributes.value };

    ghost invariant = { λ p.
        (p.attributes.value.room ≤ vec_capacity p.attributes.value.bytes) × (length p.attributes.value.bytes.items ≤ p.attributes.value.room)
        × (p.attributes.value.room ≤ vec_capacity p.attributes.value.enables) × (length p.attributes.value.enables.items ≤ p.attributes.value.room)
        × HasWord p.attributes.value.command p.attributes.value.bytes.items p.attributes.value.width };
}

// Written out, so that crates above call it and needn't prove again how each part is let go of.
impl Drop for Payload {
    fn drop(self) {
        let Payload {
            attributes: _attributes,
        } = self;
    }
}

impl Payload {
    /// A new payload that can hold `room` data bytes and as many byte enables: it has the ignore
    /// command, address 0, no data, no enables, streaming width 0, the status INCOMPLETE and no DMI
    /// hint. Its only error is want of memory.
    pub fn with_room(alloc: Global, room: u32) -> Result<Payload, Memory>
        ensures { IfOk result (λ p. p ≡ new_payload room) }
    {
        let bytes = Vec::with_capacity(alloc, room as usize)?;
        let enables = Vec::with_capacity(alloc, room as usize)?;
        let attributes = Attributes {
            command: Command::Ignore,
            address: 0,
            bytes,
            enables,
            width: 0,
            status: Response::Incomplete,
            hint: false,
            room,
        };
        Ok(Payload {
            attributes: Box::new(alloc, attributes)?,
        })
    }

    /// Makes the payload new again. The room stays.
    pub fn reset(&mut self)
        ensures { self.new ≡ new_payload self.old.room }
    {
        self.begin(Command::Ignore, 0, 0);
    }

    /// Makes it a write of these bytes, 1 to `room` of them, without byte enables. A width of at least
    /// their number means no streaming.
    #[inline(always)]
    pub fn set_write(&mut self, address: u64, bytes: &[u8], width: u64)
        requires some { 0 < length bytes.now }
        requires roomy { length bytes.now ≤ self.old.room }
        ensures { self.new ≡ record (new_payload self.old.room) {
          command = Command.Write;
          address = address;
          bytes = bytes.now;
          width = width;
        } }
    {
        let attributes = &mut *self.attributes;
        attributes.begin(Command::Write, address, width);
        append(&mut attributes.bytes, bytes);
    }

    /// Makes it a read of 1 to `room` bytes into a buffer of zeros, without byte enables.
    #[inline(always)]
    pub fn set_read(&mut self, address: u64, length: u32, width: u64)
        requires some { 0 < length }
        requires roomy { length ≤ self.old.room }
        ensures { self.new ≡ record (new_payload self.old.room) {
          command = Command.Read;
          address = address;
          bytes = zeros length;
          width = width;
        } }
    {
        let attributes = &mut *self.attributes;
        attributes.begin(Command::Read, address, width);
        fill(&mut attributes.bytes, length as usize);
    }

    /// Makes it a fetch_add of this operand: an access of four bytes, without byte enables, whose data
    /// is the operand, the least byte first.
    pub fn set_fetch_add(&mut self, address: u64, operand: u32)
        requires roomy { 4 ≤ self.old.room }
        ensures { self.new ≡ record (new_payload self.old.room) {
          command = Command.FetchAdd;
          address = address;
          bytes = le_bytes operand;
          width = 4;
        } }
    {
        self.begin(Command::Ignore, address, 4);
        append(&mut self.attributes.bytes, &operand.to_le_bytes());
        self.attributes.command = Command::FetchAdd;
    }

    /// Makes it an ignore command, with no data.
    pub fn set_ignore(&mut self, address: u64)
        ensures { self.new ≡ record (new_payload self.old.room) { address = address } }
    {
        self.begin(Command::Ignore, address, 0);
    }

    fn begin(&mut self, command: Command, address: u64, width: u64)
        requires { command ≢ Command.FetchAdd }
        ensures { self.new ≡ record (new_payload self.old.room) {
          command = command;
          address = address;
          width = width;
        } }
    {
        self.attributes.begin(command, address, width);
    }

    /// Sets the byte enables, at most `room` of them, each 0x00 or 0xff. With m of them element
    /// `k mod m` governs data byte k; without any each byte is enabled.
    pub fn set_enables(&mut self, enables: &[u8])
        requires roomy { length enables.now ≤ self.old.room }
        requires legal { IsTrue (list_all is_enable enables.now) }
        ensures { self.new ≡ record self.old { enables = enables.now } }
    {
        self.attributes.enables.clear();
        self.attributes.enables.extend_from_slice(enables).unwrap();
    }

    /// The command.
    pub fn command(&self) -> Command
        ensures { result ≡ self.now.command }
    {
        self.attributes.command
    }

    /// The address of the first data byte, as the component that holds the payload sees it.
    pub fn address(&self) -> u64
        ensures { result ≡ self.now.address }
    {
        self.attributes.address
    }

    /// The data bytes: those to write, the buffer of a read, or the operand of a fetch_add, and after it
    /// the four bytes that it found.
    pub fn bytes(&self) -> &[u8]
        ensures value { result.now ≡ self.now.bytes }
        ensures roomy { length self.now.bytes ≤ self.now.room }
        ensures word { HasWord self.now.command self.now.bytes self.now.width }
    {
        &self.attributes.bytes
    }

    /// The byte enables, none where each byte is enabled.
    pub fn enables(&self) -> &[u8]
        ensures value { result.now ≡ self.now.enables }
        ensures roomy { length self.now.enables ≤ self.now.room }
    {
        &self.attributes.enables
    }

    /// The streaming width, in bytes.
    pub fn width(&self) -> u64
        ensures { result ≡ self.now.width }
    {
        self.attributes.width
    }

    /// The response status, INCOMPLETE until a target has answered.
    pub fn status(&self) -> Response
        ensures { result ≡ self.now.status }
    {
        self.attributes.status
    }

    /// The DMI hint: the target grants direct access.
    pub fn hint(&self) -> bool
        ensures { result ≡ self.now.hint }
    {
        self.attributes.hint
    }

    /// How many data bytes, and how many byte enables, the payload can hold.
    pub fn room(&self) -> u32
        ensures { result ≡ self.now.room }
    {
        self.attributes.room
    }

    /// Sets the address alone, as an interconnect does.
    pub fn set_address(&mut self, address: u64)
        ensures { self.new ≡ record self.old { address = address } }
    {
        self.attributes.address = address;
    }

    /// Sets the response status alone.
    pub fn set_status(&mut self, status: Response)
        ensures { self.new ≡ record self.old { status = status } }
    {
        self.attributes.status = status;
    }

    /// Sets the DMI hint alone.
    pub fn set_hint(&mut self, hint: bool)
        ensures { self.new ≡ record self.old { hint = hint } }
    {
        self.attributes.hint = hint;
    }

    /// The status that a memory with these traits gives the payload: OK for an ignore command,
    /// and else by the first of these that fails: the bytes lie within the memory, it allows the
    /// command, it has byte enables where there are some, the width is valid. After OK a read, a write
    /// or a fetch_add finds its places in the memory.
    pub fn check(&self, traits: &MemoryTraits) -> Response
        ensures status { result ≡ status_by traits.now (access_of self.now) self.now.command }
        ensures places { result ≡ Response.Ok → self.now.command ≢ Command.Ignore →
            HasPlaces (access_of self.now) traits.now.size }
    {
        match self.attributes.command {
            Command::Ignore => Response::Ok,
            Command::Read => self.check_places(traits, traits.readable),
            Command::Write => self.check_places(traits, traits.writable),
            Command::FetchAdd => self.check_places(
                traits,
                traits.readable && traits.writable && traits.fetch_add,
            ),
        }
    }

    fn check_places(&self, traits: &MemoryTraits, allowed: bool) -> Response
        requires { allowed ≡ is_allowed traits.now self.now.command }
        ensures { result ≡ checked traits.now (access_of self.now) }
    {
        if self.is_beyond(traits.size) {
            Response::AddressError
        } else if !allowed {
            Response::CommandError
        } else if !self.attributes.enables.is_empty() && !traits.enables {
            Response::ByteEnableError
        } else if self.attributes.width == 0 || (self.is_streaming() && !traits.streaming) {
            Response::BurstError
        } else {
            Response::Ok
        }
    }

    fn is_beyond(&self, size: u64) -> bool
        ensures { IsTrue result ↔ (size < self.now.address + span_of (access_of self.now)) }
    {
        match self.attributes.address.checked_add(self.span()) {
            Some(end) => size < end,
            None => true,
        }
    }

    fn span(&self) -> u64
        ensures { result ≡ span_of (access_of self.now) }
    {
        let length = self.attributes.bytes.len() as u64;
        if self.attributes.width == 0 {
            length
        } else {
            length.min(self.attributes.width)
        }
    }

    fn is_streaming(&self) -> bool
        ensures { IsTrue result ↔ (self.now.width < length self.now.bytes) }
    {
        self.attributes.width < self.attributes.bytes.len() as u64
    }

    /// Puts the enabled data bytes of a write to their places in the bytes of a memory, where the check
    /// gave OK for a memory of that size. Of the bytes that stream to one place the last stays.
    pub fn write_into(&self, store: &mut [u8])
        requires write { self.now.command ≡ Command.Write }
        requires places { HasPlaces (access_of self.now) (length store.old) }
        ensures { store.new ≡ stored_by self.now.command Response.Ok (access_of self.now) store.old }
    {
        let start = self.attributes.address as usize;
        let places = &mut store[start..start + self.span() as usize];
        let bytes = self.attributes.bytes.as_slice();
        let enables = self.attributes.enables.as_slice();
        if self.is_streaming() {
            stream_into(places, bytes, enables);
        } else {
            merge(places, bytes, enables);
        }
    }

    /// Fills the enabled bytes of a read's buffer from their places in the bytes of a memory, where
    /// the check gave OK for a memory of that size. The disabled bytes stay.
    pub fn read_from(&mut self, store: &[u8])
        requires read { self.old.command ≡ Command.Read }
        requires places { HasPlaces (access_of self.old) (length store.now) }
        ensures { self.new ≡ record self.old {
          bytes = got_by self.old.command Response.Ok (access_of self.old) store.now;
        } }
    {
        let start = self.attributes.address as usize;
        let places = &store[start..start + self.span() as usize];
        if self.is_streaming() {
            let attributes = &mut *self.attributes;
            stream_from(&mut attributes.bytes, places, &attributes.enables);
        } else {
            let attributes = &mut *self.attributes;
            merge(&mut attributes.bytes, places, &attributes.enables);
        }
    }

    /// Does a fetch_add on the bytes of a memory, where the check gave OK for a memory of that size: the
    /// four bytes at the address become their sum with the operand, modulo 2^32, and the payload's data
    /// is what stood there before.
    pub fn fetch_into(&mut self, store: &mut [u8])
        requires fetch { self.old.command ≡ Command.FetchAdd }
        requires places { HasPlaces (access_of self.old) (length store.old) }
        ensures payload { self.new ≡ record self.old {
          bytes = got_by self.old.command Response.Ok (access_of self.old) store.old;
        } }
        ensures store { store.new ≡ stored_by self.old.command Response.Ok (access_of self.old) store.old }
    {
        let start = self.attributes.address as usize;
        let attributes = &mut *self.attributes;
        fetch_word(
            &mut attributes.bytes,
            &attributes.enables,
            &mut store[start..start + 4],
        );
    }

    /// Moves the bytes of a memory from the address on to the front of the data, to the memory's end at
    /// most, as debug transport does (11.3): byte enables and streaming width don't count. Answers how
    /// many bytes were moved. The other data bytes stay.
    pub fn debug_from(&mut self, store: &[u8]) -> u64
        ensures payload { let got = moved_by self.old store.now in
            self.new ≡ record self.old { bytes = got ++ drop (length got) self.old.bytes } }
        ensures moved { result ≡ length (moved_by self.old store.now) }
    {
        let start = (self.attributes.address as usize).min(store.len());
        copy_front(&mut self.attributes.bytes, &store[start..]) as u64
    }
}

// Appends bytes for which there is room. Most accesses are of a word or of two, which take no call.
#[inline(always)]
fn append(bytes: &mut Vec<u8>, more: &[u8])
    requires { vec_len bytes.old + length more.now ≤ vec_capacity bytes.old }
    ensures items { bytes.new.items ≡ bytes.old.items ++ more.now }
    ensures len { vec_len bytes.new ≡ vec_len bytes.old + length more.now }
    ensures capacity { vec_capacity bytes.old ≤ vec_capacity bytes.new }
{
    match more.len() {
        4 => bytes.extend_from_slice(&more[..4]).unwrap(),
        8 => bytes.extend_from_slice(&more[..8]).unwrap(),
        _ => bytes.extend_from_slice(more).unwrap(),
    }
}

// Makes it so many zeros, for which there is room.
#[inline(always)]
fn fill(bytes: &mut Vec<u8>, count: usize)
    requires empty { bytes.old.items ≡ [] }
    requires roomy { count ≤ vec_capacity bytes.old }
    ensures items { bytes.new.items ≡ zeros count }
    ensures len { vec_len bytes.new ≡ count }
    ensures capacity { vec_capacity bytes.old ≤ vec_capacity bytes.new }
{
    match count {
        4 => bytes.resize(4, 0).unwrap(),
        8 => bytes.resize(8, 0).unwrap(),
        _ => bytes.resize(count, 0).unwrap(),
    }
}

// Copies the first places to the front of the bytes, as many as there are of both, and answers how many.
fn copy_front(bytes: &mut [u8], places: &[u8]) -> usize
    ensures copied { let got = take (length bytes.old) places.now in
        bytes.new ≡ got ++ drop (length got) bytes.old }
    ensures count { result ≡ length (take (length bytes.old) places.now) }
{
    let count = places.len().min(bytes.len());
    bytes[..count].copy_from_slice(&places[..count]);
    count
}
