// The long form of a log's items, which has room for any entry.
ghost use Rattle.std.specs.Prelude.{◌≡◌, false, Some};
ghost use Rattle.log_items.specs.Items.{access_in, facts_from, facts_in, head_in, item_for, plain_in, plain_what, span_in, stored_at};
ghost use Rattle.tlm_types.specs.Entries.{is_access};

use tlm_types::{
    Command, Facts, Head, Kind, ObjectNo, Phase, Ps, Response, TlmSync, TxnId, Way, What,
};

/// An entry, with where the bytes of an access begin.
#[derive(Clone, Copy)]
pub struct LongItem {
    pub(crate) position: u64,
    pub(crate) time: Ps,
    pub(crate) seq: u64,
    pub(crate) initiator: u32,
    pub(crate) start: u32,
    pub(crate) object: ObjectNo,
    pub(crate) event: Event,
}

/// What happened.
#[derive(Clone, Copy)]
pub enum Event {
    Plain(Plain),
    Access(StoredAccess),
}

/// What happened, where it is no access.
#[derive(Clone, Copy)]
pub enum Plain {
    Granted {
        gate: u32,
        kind: Kind,
        first: u64,
        last: u64,
    },
    Invalidated {
        first: u64,
        last: u64,
    },
    Closed {
        gate: u32,
    },
    Call {
        phase: Phase,
        answer: TlmSync,
    },
    Take {
        slot: u32,
    },
    Acquire {
        slot: u32,
    },
    Release {
        slot: u32,
        freed: bool,
    },
}

/// An access whose bytes stand one after another: what it sent, its enables and what it got.
#[derive(Clone, Copy)]
pub struct StoredAccess {
    offset: u64,
    length: u64,
    width: u64,
    enables_start: u32,
    got_start: u32,
    end: u32,
    way: Way,
    command: Command,
    status: Response,
}

/// Where the bytes of an access stand.
#[derive(Clone, Copy)]
pub struct Span {
    pub start: u32,
    pub enables_start: u32,
    pub got_start: u32,
    pub end: u32,
}

/// An access, with where its bytes stand.
#[derive(Clone, Copy)]
pub struct PlacedAccess {
    pub head: Head,
    pub facts: Facts,
    pub span: Span,
}

pub(crate) fn long_item(head: Head, start: u32, event: Event) -> LongItem
    ensures { result ≡ item_for head start event }
{
    LongItem {
        position: head.position,
        time: head.time,
        seq: head.txn.seq,
        initiator: head.txn.initiator,
        start,
        object: head.object,
        event,
    }
}

/// The head of an entry, field by field: so a part of it that is needed where this is inlined stays in a register, also
/// where the copy goes to a function that isn't.
#[inline(always)]
pub fn copied_head(head: &Head) -> Head
    ensures { result ≡ head.now }
{
    Head {
        position: head.position,
        object: head.object,
        txn: TxnId {
            initiator: head.txn.initiator,
            seq: head.txn.seq,
        },
        time: head.time,
    }
}

pub(crate) fn head_of(item: &LongItem) -> Head
    ensures { result ≡ head_in item.now }
{
    Head {
        position: item.position,
        object: item.object,
        txn: TxnId {
            initiator: item.initiator,
            seq: item.seq,
        },
        time: item.time,
    }
}

pub(crate) fn what_of(item: &LongItem) -> Option<What>
    ensures { result ≡ plain_in item.now.event }
{
    match &item.event {
        Event::Plain(plain) => Some(plain_what(*plain)),
        Event::Access(_) => None,
    }
}

pub(crate) fn facts_of(item: &LongItem) -> Option<Facts>
    ensures { result ≡ facts_from item.now.event }
{
    match &item.event {
        Event::Plain(_) => None,
        Event::Access(access) => Some(facts_in(access)),
    }
}

pub(crate) fn access_of(item: &LongItem) -> Option<PlacedAccess>
    ensures { result ≡ access_in item.now }
{
    match &item.event {
        Event::Plain(_) => None,
        Event::Access(access) => Some(PlacedAccess {
            head: head_of(item),
            facts: facts_in(access),
            span: span_in(item.start, access),
        }),
    }
}

fn facts_in(access: &StoredAccess) -> Facts
    ensures { result ≡ facts_in access.now }
{
    Facts {
        way: access.way,
        command: access.command,
        offset: access.offset,
        length: access.length,
        width: access.width,
        status: access.status,
    }
}

fn span_in(start: u32, access: &StoredAccess) -> Span
    ensures { result ≡ span_in start access.now }
{
    Span {
        start,
        enables_start: access.enables_start,
        got_start: access.got_start,
        end: access.end,
    }
}

pub(crate) fn stored_access(facts: Facts, span: Span) -> StoredAccess
    ensures { result ≡ stored_at facts span }
{
    StoredAccess {
        offset: facts.offset,
        length: facts.length,
        width: facts.width,
        enables_start: span.enables_start,
        got_start: span.got_start,
        end: span.end,
        way: facts.way,
        command: facts.command,
        status: facts.status,
    }
}

/// What happened, as it is kept, where it is no access.
#[inline(always)]
pub fn plain_event(what: What) -> Plain
    requires { is_access what ≡ false }
    ensures { plain_what result ≡ what }
{
    match what {
        What::Access { .. } => unreachable!(),
        What::Granted {
            gate,
            first,
            last,
            kind,
        } => Plain::Granted {
            gate,
            kind,
            first,
            last,
        },
        What::Invalidated { first, last } => Plain::Invalidated { first, last },
        What::Closed { gate } => Plain::Closed { gate },
        What::Call { phase, answer } => Plain::Call { phase, answer },
        What::Take { slot } => Plain::Take { slot },
        What::Acquire { slot } => Plain::Acquire { slot },
        What::Release { slot, freed } => Plain::Release { slot, freed },
    }
}

fn plain_what(plain: Plain) -> What
    ensures { result ≡ plain_what plain }
{
    match plain {
        Plain::Granted {
            gate,
            kind,
            first,
            last,
        } => What::Granted {
            gate,
            first,
            last,
            kind,
        },
        Plain::Invalidated { first, last } => What::Invalidated { first, last },
        Plain::Closed { gate } => What::Closed { gate },
        Plain::Call { phase, answer } => What::Call { phase, answer },
        Plain::Take { slot } => What::Take { slot },
        Plain::Acquire { slot } => What::Acquire { slot },
        Plain::Release { slot, freed } => What::Release { slot, freed },
    }
}
