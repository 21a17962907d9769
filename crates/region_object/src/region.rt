// A memory with its log, and its accesses.
ghost use Rattle.std.specs.Prelude.{◌≡◌, ◌≢◌, ◌⊎◌, ◌+◌, ◌-◌, ◌<◌, ◌≤◌, [], length, take, true, false, All, IfOk, None, IsTrue};
ghost use Rattle.tlm_types.specs.declared.words.Command.TheVariants.{Read};
ghost use Rattle.tlm_types.specs.declared.entry.What.TheVariants.{Access as Accessed, Granted, Invalidated};
ghost use Rattle.tlm_types.specs.Traits.{allowed_kind};
ghost use Rattle.tlm_types.specs.Entries.{entry_at, is_access, kept_sent};
ghost use Rattle.entry_log.specs.Log.{with_entry};
ghost use Rattle.tlm_model.specs.Log.{IsLog, log_bytes};
ghost use Rattle.tlm_model.specs.Store.{zeros, got_by, is_allowed, stored_by};
ghost use Rattle.generic_payload.specs.Payload.{access_of, HasPlaces};
ghost use Rattle.shared_object.specs.Written.{NamesOwnGate, sign_of, sign_of_way};
ghost use Rattle.region_object.specs.Call.{Fits, IsCloseFit, IsFit, MovesData, cost_of, debug_access, payload_cost};
ghost use Rattle.region_object.specs.Grants.{IsGrantLog, grants_in, is_closed, least_open};
ghost use Rattle.region_object.specs.Region.{accessed, after_call, answered, buffer_after, debugged, denial_of, got_told, sent_told, grant_reply, head_at, is_admitted, next_gate, reply_of, told_by, what_of, with_logged};
ghost use Rattle.region_object.specs.Written.{written_from};

use crate::call::{Denial, RegionCall, RegionReply};
use crate::gates::Gates;
use entry_log::Log;
use generic_payload::Payload;
use one_history::Sign;
use std::alloc::Global;
use std::marker::Model;
use tlm_types::{
    Bytes, Command, Facts, Head, Memory, MemoryTraits, ObjectNo, Ps, Response, TxnId, Way, What,
    kind_of,
};

/// A memory, which is a target with debug transport and a direct memory interface (clauses 11.2 and 11.3), with its log. Contracts see its
/// number, its traits, the number of its first gate, and its log with the room that it has left.
pub struct Region {
    number: u32,
    traits: MemoryTraits,
    store: Vec<u8>,
    gates: Gates,
    log: Log,
}

impl Model for Region {
    ghost use Rattle.region_object.specs.Region.{LoggedMemory, IsConsistent};

    ghost Value = { LoggedMemory };

    ghost view = { λ r. record {
      number = r.number;
      traits = r.traits;
      first_gate = r.gates.first;
      log = r.log;
    } };

    ghost invariant = { λ r. IsConsistent r.number r.traits r.store.items r.gates r.log.entries };
}

// Written out, so that crates above call it and needn't prove again how each part is let go of.
impl Drop for Region {
    fn drop(self) {
        let Region {
            number: _,
            traits: _,
            store: _store,
            gates: _gates,
            log: _log,
        } = self;
    }
}

impl Region {
    /// Memory number `number`, counted from 0, with `traits.size` bytes, each zero, and an empty log
    /// with room for so many entries and so many bytes of data and byte enables. Its gates are numbered
    /// from `first_gate`, all below 2^32. Its only error is want of memory.
    pub fn new(
        alloc: Global,
        number: u32,
        traits: MemoryTraits,
        entries: u64,
        bytes: u64,
        first_gate: u32,
    ) -> Result<Region, Memory>
        requires gates { first_gate + traits.gates ≤ 4294967295 }
        ensures { IfOk result (λ r. r ≡ record {
          number = number;
          traits = traits;
          first_gate = first_gate;
          log = record { entries = []; room = entries; room_bytes = bytes; whole = true };
        }) }
    {
        let store = vec![in alloc; 0u8; traits.size as usize]?;
        let gates = Gates::new(alloc, first_gate, traits.gates)?;
        let log = Log::with_room(alloc, entries, bytes)?;
        Ok(Region {
            number,
            traits,
            store,
            gates,
            log,
        })
    }

    /// The number with which the memory was made.
    pub fn number(&self) -> u32
        ensures { result ≡ self.now.number }
    {
        self.number
    }

    /// The traits with which the memory was made.
    pub fn traits(&self) -> &MemoryTraits
        ensures { result.now ≡ self.now.traits }
    {
        &self.traits
    }

    /// The number of the memory's first gate.
    pub fn first_gate(&self) -> u32
        ensures { result ≡ self.now.first_gate }
    {
        self.gates.first()
    }

    /// The log: an entry for each call so far, in the order in which they were made.
    pub fn log(&self) -> &Log
        ensures log { result.now ≡ self.now.log }
        ensures lawful { IsLog self.now.traits self.now.log.entries }
        ensures granted { IsGrantLog self.now.first_gate self.now.traits self.now.log.entries }
        ensures own { All (λ e. e.object ≡ ObjectNo.Memory self.now.number) self.now.log.entries }
    {
        &self.log
    }

    /// The log forgets its entries, and those that come after them, so that they can't be read any more.
    /// Nothing else changes.
    pub fn forget(&mut self)
        ensures { self.new ≡ record self.old { log = record self.old.log { whole = self.new.log.whole } } }
    {
        self.log.forget();
    }

    /// The bytes as the log leaves them, as many as the memory's size.
    pub fn bytes(&self) -> &[u8]
        ensures bytes { result.now ≡ log_bytes self.now.traits self.now.log.entries }
        ensures size { length result.now ≡ self.now.traits.size }
    {
        &self.store
    }

    /// The log and the bytes, when the memory is done with.
    pub fn into_parts(self) -> (Log, Bytes)
        ensures log { result.0 ≡ self.log }
        ensures lawful { IsLog self.traits self.log.entries }
        ensures bytes { result.1 ≡ log_bytes self.traits self.log.entries }
        ensures size { length result.1 ≡ self.traits.size }
    {
        let Region {
            number: _,
            traits: _,
            store,
            gates: _gates,
            log,
        } = self;
        (log, Bytes::from_vec(store))
    }

    /// Makes this call. Where it adds an entry, there has to be room for it, and for its bytes, so that it
    /// can't fail for want of memory. The entry has this position.
    ///
    /// An access comes by blocking transport or with four phases, and a read into a buffer of zeros. The
    /// payload comes back with the status of `Payload::check`; where that is OK a write has put its
    /// bytes, a read has its data, and a fetch_add has done both in this one step. The DMI hint is set
    /// exactly where the memory grants direct access and the status is OK. A direct access does the same,
    /// and its status is OK.
    ///
    /// A debug read moves the bytes from its address on, to the memory's end at most, to the front of
    /// the payload's data, whatever the memory allows (IEEE 1666-2011, clause 11.3). Its status is OK,
    /// and the hint stays as it was.
    ///
    /// A grant takes the least gate that was never given, and is of the whole memory and of the kind that
    /// it allows (clause 11.2). It is denied where the memory grants no direct access, else where it
    /// doesn't allow the command, else where all gates were given. A gate is closed once.
    #[inline(always)]
    pub fn apply(&mut self, position: u64, call: RegionCall) -> RegionReply
        requires fit { Fits (written_from 0 self.old.log.entries) call }
        requires room { is_admitted self.old call ≡ true → length self.old.log.entries < self.old.log.room }
        requires room_bytes { is_admitted self.old call ≡ true → cost_of call ≤ self.old.log.room_bytes }
        ensures memory { self.new ≡ after_call self.old position call }
        ensures reply { result ≡ reply_of self.old call }
        ensures left { self.old.log.room_bytes ≤ self.new.log.room_bytes + cost_of call }
    {
        self.make(position, call)
    }

    #[inline(always)]
    fn make(&mut self, position: u64, call: RegionCall) -> RegionReply
        requires fit { Fits (written_from 0 self.old.log.entries) call }
        requires room { is_admitted self.old call ≡ true → length self.old.log.entries < self.old.log.room }
        requires room_bytes { is_admitted self.old call ≡ true → cost_of call ≤ self.old.log.room_bytes }
        ensures memory { self.new ≡ after_call self.old position call }
        ensures reply { result ≡ reply_of self.old call }
    {
        match call {
            RegionCall::Access {
                txn,
                time,
                way,
                mut payload,
            } => {
                self.transport(position, txn, time, way, &mut payload);
                RegionReply::Accessed { payload }
            }
            RegionCall::Debug {
                txn,
                time,
                mut payload,
            } => {
                let moved = self.debug(position, txn, time, &mut payload);
                RegionReply::Moved { payload, moved }
            }
            RegionCall::Grant { txn, time, command } => self.grant(position, txn, time, command),
            RegionCall::Direct {
                gate,
                txn,
                time,
                mut payload,
            } => {
                let head = self.head(position, txn, time);
                self.access(head, Way::Direct(gate), &mut payload);
                RegionReply::Direct { payload }
            }
            RegionCall::Invalidate {
                txn,
                time,
                first,
                last,
            } => self.invalidate(position, txn, time, first, last),
            RegionCall::Overlapping {
                from,
                first,
                last,
                before,
            } => RegionReply::Overlapping(self.overlapping(from, first, last, before)),
            RegionCall::Close { txn, time, gate } => self.close(position, txn, time, gate),
        }
    }

    /// Whether the call would add an entry.
    pub fn admits(&self, call: &RegionCall) -> bool
        ensures { result ≡ is_admitted self.now call.now }
    {
        match call {
            RegionCall::Access { .. }
            | RegionCall::Debug { .. }
            | RegionCall::Direct { .. }
            | RegionCall::Invalidate { .. } => true,
            RegionCall::Grant { command, .. } => self.denial(*command).is_none(),
            RegionCall::Overlapping { .. } => false,
            RegionCall::Close { gate, .. } => !self.is_closed(*gate),
        }
    }

    /// What the history reads of the entry that the call would add. A gate that is granted or closed is
    /// one of the memory's.
    pub fn sign(&self, call: &RegionCall) -> Sign
        requires { is_admitted self.now call.now ≡ true }
        ensures sign { result ≡ sign_of (what_of self.now call.now) }
        ensures gates { Fits (written_from 0 self.now.log.entries) call.now →
            NamesOwnGate (self.now.first_gate, self.now.traits.gates) result }
    {
        match call {
            RegionCall::Access { way, .. } => sign_by(*way),
            RegionCall::Direct { gate, .. } => Sign::Direct { gate: *gate },
            RegionCall::Grant { .. } => Sign::Granted {
                gate: self.gates.next(),
                first: 0,
                last: self.traits.size.saturating_sub(1),
            },
            RegionCall::Invalidate { first, last, .. } => Sign::Invalidated {
                first: *first,
                last: *last,
            },
            RegionCall::Close { gate, .. } => Sign::Closed { gate: *gate },
            RegionCall::Debug { .. } | RegionCall::Overlapping { .. } => Sign::Plain,
        }
    }

    // Whether a gate of this number is closed.
    fn is_closed(&self, gate: u32) -> bool
        ensures { result ≡ is_closed gate self.now.log.entries }
    {
        self.gates.is_shut(gate)
    }

    // Gives a grant, or says why not.
    fn grant(&mut self, position: u64, txn: TxnId, time: Ps, command: Command) -> RegionReply
        requires fit { Fits (written_from 0 self.old.log.entries) (RegionCall.Grant txn time command) }
        requires room { denial_of self.old command ≡ None → length self.old.log.entries < self.old.log.room }
        ensures memory { self.new ≡ after_call self.old position (RegionCall.Grant txn time command) }
        ensures reply { result ≡ grant_reply self.old (denial_of self.old command) }
    {
        match self.denial(command) {
            Some(denial) => RegionReply::Denied(denial),
            None => self.give(position, txn, time),
        }
    }

    /// Why the memory gives no grant for this command now, if it gives none.
    pub fn denial(&self, command: Command) -> Option<Denial>
        ensures { result ≡ denial_of self.now command }
    {
        if !self.traits.dmi {
            return Some(Denial::NoDmi);
        }
        if !is_allowed(&self.traits, command) {
            return Some(Denial::NotAllowed);
        }
        if self.gates.given() >= self.traits.gates {
            return Some(Denial::GatesSpent);
        }
        None
    }

    // Gives the next gate.
    fn give(&mut self, position: u64, txn: TxnId, time: Ps) -> RegionReply
        requires dmi { self.old.traits.dmi ≡ true }
        requires allowed { (self.old.traits.readable ≡ true) ⊎ (self.old.traits.writable ≡ true) }
        requires left { grants_in self.old.log.entries < self.old.traits.gates }
        requires room { length self.old.log.entries < self.old.log.room }
        ensures memory { self.new ≡ with_logged self.old (entry_at (head_at self.old position txn time)
            (Granted (next_gate self.old) 0 (self.old.traits.size - 1) (allowed_kind self.old.traits.readable self.old.traits.writable))) }
        ensures reply { result ≡ grant_reply self.old None }
    {
        let head = self.head(position, txn, time);
        let gate = self.gates.give(position);
        let last = self.traits.size.saturating_sub(1);
        let kind = kind_of(&self.traits);
        let what = What::Granted {
            gate,
            first: 0,
            last,
            kind,
        };
        tell(&mut self.log, head, what);
        RegionReply::Granted {
            gate,
            first: 0,
            last,
            kind,
        }
    }

    // Tells an invalidation.
    fn invalidate(
        &mut self,
        position: u64,
        txn: TxnId,
        time: Ps,
        first: u64,
        last: u64,
    ) -> RegionReply
        requires room { length self.old.log.entries < self.old.log.room }
        ensures memory { self.new ≡ with_logged self.old (entry_at (head_at self.old position txn time) (Invalidated first last)) }
        ensures reply { result ≡ RegionReply.Invalidated }
    {
        let head = self.head(position, txn, time);
        tell(&mut self.log, head, What::Invalidated { first, last });
        RegionReply::Invalidated
    }

    // The least gate from `from` on whose grant overlaps the range, was given before this position, and
    // isn't closed. Each grant is of the whole memory.
    fn overlapping(&self, from: u32, first: u64, last: u64, before: u64) -> Option<u32>
        ensures { result ≡ least_open self.now.log.entries (self.now.first_gate, self.now.traits.gates) from first last before }
    {
        let _ = last;
        if first > self.traits.size.saturating_sub(1) {
            return None;
        }
        self.gates.least_given_before(from, before)
    }

    // Closes a gate that was given, unless it is closed.
    fn close(&mut self, position: u64, txn: TxnId, time: Ps, gate: u32) -> RegionReply
        requires fit { IsCloseFit (written_from 0 self.old.log.entries) gate }
        requires room { is_admitted self.old (RegionCall.Close txn time gate) ≡ true → length self.old.log.entries < self.old.log.room }
        ensures memory { self.new ≡ after_call self.old position (RegionCall.Close txn time gate) }
        ensures reply { result ≡ reply_of self.old (RegionCall.Close txn time gate) }
    {
        if self.is_closed(gate) {
            return RegionReply::AlreadyClosed;
        }
        let head = self.head(position, txn, time);
        self.gates.shut(gate);
        tell(&mut self.log, head, What::Closed { gate });
        RegionReply::Closed
    }

    /// Makes the access of a `RegionCall::Access` on a payload that stays where it is.
    pub fn transport(
        &mut self,
        position: u64,
        txn: TxnId,
        time: Ps,
        way: Way,
        payload: &mut Payload,
    )
        requires fit { IsFit (RegionCall.Access txn time way payload.old) }
        requires room { length self.old.log.entries < self.old.log.room }
        requires room_bytes { cost_of (RegionCall.Access txn time way payload.old) ≤ self.old.log.room_bytes }
        ensures memory { self.new ≡ after_call self.old position (RegionCall.Access txn time way payload.old) }
        ensures payload { payload.new ≡ accessed self.old way payload.old }
    {
        let head = self.head(position, txn, time);
        self.access(head, way, payload);
    }

    /// Makes the debug read of a `RegionCall::Debug` on a payload that stays where it is, and answers how
    /// many bytes were moved.
    pub fn debug(&mut self, position: u64, txn: TxnId, time: Ps, payload: &mut Payload) -> u64
        requires fit { IsFit (RegionCall.Debug txn time payload.old) }
        requires room { length self.old.log.entries < self.old.log.room }
        requires room_bytes { cost_of (RegionCall.Debug txn time payload.old) ≤ self.old.log.room_bytes }
        ensures memory { self.new ≡ after_call self.old position (RegionCall.Debug txn time payload.old) }
        ensures reply { RegionReply.Moved payload.new result ≡ debugged self.old payload.old }
    {
        let head = self.head(position, txn, time);
        self.debug_read(head, payload)
    }

    fn head(&self, position: u64, txn: TxnId, time: Ps) -> Head
        ensures { result ≡ head_at self.now position txn time }
    {
        Head {
            position,
            object: ObjectNo::Memory(self.number),
            txn,
            time,
        }
    }

    fn access(&mut self, head: Head, way: Way, payload: &mut Payload)
        requires head { head.object ≡ ObjectNo.Memory self.old.number }
        requires way { MovesData way }
        requires zeros { payload.old.command ≡ Read → payload.old.bytes ≡ zeros (length payload.old.bytes) }
        requires room { length self.old.log.entries < self.old.log.room }
        requires room_bytes { payload_cost payload.old ≤ self.old.log.room_bytes }
        ensures memory { self.new ≡ with_logged self.old
            (entry_at head (answered self.old.traits self.old.log.entries way (access_of payload.old))) }
        ensures payload { payload.new ≡ accessed self.old way payload.old }
    {
        let operand = operand_of(payload);
        let status = payload.check(&self.traits);
        move_bytes(payload, &mut self.store, status);
        payload.set_status(status);
        payload.set_hint(self.traits.dmi && status == Response::Ok);
        log_access(&mut self.log, head, way, &operand, payload);
    }

    fn debug_read(&mut self, head: Head, payload: &mut Payload) -> u64
        requires head { head.object ≡ ObjectNo.Memory self.old.number }
        requires read { payload.old.command ≡ Read }
        requires room { length self.old.log.entries < self.old.log.room }
        requires room_bytes { length payload.old.bytes ≤ self.old.log.room_bytes }
        ensures memory { self.new ≡ with_logged self.old (entry_at head
            (answered self.old.traits self.old.log.entries Way.Debug (debug_access payload.old.address (length payload.old.bytes)))) }
        ensures reply { RegionReply.Moved payload.new result ≡ debugged self.old payload.old }
    {
        let moved = payload.debug_from(&self.store);
        payload.set_status(Response::Ok);
        log_debug(&mut self.log, head, payload, moved);
        moved
    }
}

// What the history reads of an access by this way.
fn sign_by(way: Way) -> Sign
    ensures { result ≡ sign_of_way way }
{
    match way {
        Way::Direct(gate) => Sign::Direct { gate },
        Way::Blocking | Way::FourPhase | Way::Debug => Sign::Plain,
    }
}

// Whether a memory allows the command.
fn is_allowed(traits: &MemoryTraits, command: Command) -> bool
    ensures { result ≡ is_allowed traits.now command }
{
    match command {
        Command::Read => traits.readable,
        Command::Write => traits.writable,
        Command::FetchAdd => traits.readable && traits.writable && traits.fetch_add,
        Command::Ignore => true,
    }
}

// Adds an entry that is no access.
fn tell(log: &mut Log, head: Head, what: What)
    requires plain { is_access what ≡ false }
    requires room { length log.old.entries < log.old.room }
    ensures { log.new ≡ with_entry log.old (entry_at head what) }
{
    let Ok(()) = log.push(head, what) else {
        unreachable!()
    };
}

// Does what an access with this status does: a write puts its bytes, and a read takes them.
fn move_bytes(payload: &mut Payload, store: &mut [u8], status: Response)
    requires { status ≡ Response.Ok → payload.old.command ≢ Command.Ignore →
        HasPlaces (access_of payload.old) (length store.old) }
    ensures store { store.new ≡ stored_by payload.old.command status (access_of payload.old) store.old }
    ensures payload { let got = got_by payload.old.command status (access_of payload.old) store.old in
        payload.new ≡ record payload.old { bytes = buffer_after payload.old.command got payload.old.bytes } }
{
    if status != Response::Ok {
        return;
    }
    match payload.command() {
        Command::Write => payload.write_into(store),
        Command::Read => payload.read_from(store),
        Command::FetchAdd => payload.fetch_into(store),
        Command::Ignore => {}
    }
}

// The operand of a fetch_add, and for any other command zeros.
fn operand_of(payload: &Payload) -> [u8; 4]
    ensures { payload.now.command ≡ Command.FetchAdd → result ≡ payload.now.bytes }
{
    match (payload.command(), payload.bytes()) {
        (Command::FetchAdd, [a, b, c, d]) => [*a, *b, *c, *d],
        _ => [0; 4],
    }
}

// Adds the entry of an access, which the payload tells afterwards; the operand is that of a fetch_add.
fn log_access(log: &mut Log, head: Head, way: Way, operand: &[u8; 4], payload: &Payload)
    requires room { length log.old.entries < log.old.room }
    requires room_bytes { payload_cost payload.now ≤ log.old.room_bytes }
    requires way { MovesData way }
    ensures { log.new ≡ with_entry log.old (entry_at head (told_by way operand.now payload.now)) }
{
    let facts = Facts {
        way,
        command: payload.command(),
        offset: payload.address(),
        length: payload.bytes().len() as u64,
        width: payload.width(),
        status: payload.status(),
    };
    let (sent, got) = sent_and_got(operand, payload);
    let Ok(()) = log.push_access(head, facts, sent, payload.enables(), got) else {
        unreachable!()
    };
}

// What the log keeps of the data: for a read what it got, for a fetch_add both, else what was sent.
fn sent_and_got<'a>(operand: &'a [u8; 4], payload: &'a Payload) -> (&'a [u8], &'a [u8])
    ensures sent { result.0.now ≡ kept_sent payload.now.command (sent_told payload.now.command operand.now payload.now.bytes) }
    ensures got { result.1.now ≡ got_told payload.now.command payload.now.bytes }
{
    match payload.command() {
        Command::Read => (&[], payload.bytes()),
        Command::Write | Command::Ignore => (payload.bytes(), &[]),
        Command::FetchAdd => (operand.as_slice(), payload.bytes()),
    }
}

// Adds the entry of a debug read, whose payload begins with the bytes moved.
fn log_debug(log: &mut Log, head: Head, payload: &Payload, moved: u64)
    requires moved { moved ≤ length payload.now.bytes }
    requires room { length log.old.entries < log.old.room }
    requires room_bytes { moved ≤ log.old.room_bytes }
    ensures { log.new ≡ with_entry log.old (entry_at head (Accessed Way.Debug
        (debug_access payload.now.address (length payload.now.bytes)) Response.Ok (take moved payload.now.bytes))) }
{
    let bytes = payload.bytes();
    let facts = Facts {
        way: Way::Debug,
        command: Command::Read,
        offset: payload.address(),
        length: bytes.len() as u64,
        width: bytes.len() as u64,
        status: Response::Ok,
    };
    let Ok(()) = log.push_access(head, facts, &[], &[], &bytes[..moved as usize]) else {
        unreachable!()
    };
}
