// The items that a log keeps of its entries. A long history is as large as its items, so what most
// entries have is kept in a short form, and the fields of an item are in an order that leaves no room
// between them.
ghost use Rattle.std.specs.Prelude.{◌≡◌, ◌+◌, ◌^◌, ◌<◌, ◌≤◌, [], length, Some, IfSome, IsTrue, option_map, slice_range};
ghost use Rattle.log_items.specs.Items.{access_in, facts_from, full_access, full_head, full_way, head_in, item_for, long_form, plain_in, short_facts, short_span, stored_at, word_access, word_head, IsOrdered, FitsItems, IsShortFor, IsWordFor};
ghost use Rattle.log_items.specs.declared.long.Event.TheVariants as events;
ghost use Rattle.log_items.specs.declared.long.Plain.TheVariants.{Call};
ghost use Rattle.tlm_types.specs.declared.words.ObjectNo.TheVariants.{Memory};

use crate::long::{LongItem, PlacedAccess, Plain, Span, access_of, facts_of, head_of, what_of};
use std::mem::size_of;
use tlm_types::{Command, Facts, Head, ObjectNo, Phase, Ps, Response, TlmSync, TxnId, Way, What};

#[derive(Clone, Copy)]
pub(crate) enum Item {
    // An access at a memory that answered OK, without byte enables, of just `length` bytes, whose
    // streaming width is its length, and no fetch_add.
    Access {
        way: ShortWay,
        length: u16,
        access: ShortAccess,
        head: ShortHead,
    },
    // Such an access by direct access, through a gate below 256.
    Direct {
        gate: u8,
        length: u16,
        access: ShortAccess,
        head: ShortHead,
    },
    // An access as in `Access`, of at most 8 bytes and at a time below 2^32, which stand in the item.
    Word {
        way: ShortWay,
        length: u8,
        word: Word,
    },
    // A call on a hop.
    Call {
        phase: Phase,
        answer: TlmSync,
        initiator: u8,
        object: u16,
        head: ShortHead,
    },
    // What is done with a payload of a pool.
    Take {
        initiator: u8,
        object: u16,
        slot: u32,
        head: ShortHead,
    },
    Acquire {
        initiator: u8,
        object: u16,
        slot: u32,
        head: ShortHead,
    },
    Release {
        freed: bool,
        initiator: u8,
        object: u16,
        slot: u32,
        head: ShortHead,
    },
    // Any other entry: its place among the long items.
    Long(usize),
}

const _: () = prove!(size_of::<Item>() == 32);

// A head whose position and sequence number are below 2^32. Its initiator, below 2^8, and its object,
// below 2^16, stand outside, since the head begins at a multiple of 8 bytes.
#[derive(Clone, Copy)]
pub(crate) struct ShortHead {
    time: Ps,
    position: u32,
    seq: u32,
}

// An access with its bytes, and zeros behind them. Its time, position and sequence number are below 2^32.
#[derive(Clone, Copy)]
pub(crate) struct Word {
    command: Command,
    initiator: u8,
    object: u16,
    offset: u32,
    position: u32,
    seq: u32,
    time: u32,
    bytes: [u8; WORD],
}

/// So many bytes of an access stand in its item at most.
pub const WORD: usize = 8;

// A way that isn't direct.
#[derive(Clone, Copy)]
pub(crate) enum ShortWay {
    Blocking,
    FourPhase,
    Debug,
}

// What accesses of each way have alike: their bytes stand from `start` on. The length stands outside,
// since this begins at a multiple of 4 bytes.
#[derive(Clone, Copy)]
pub(crate) struct ShortAccess {
    command: Command,
    initiator: u8,
    object: u16,
    start: u32,
    offset: u32,
}

impl Item {
    // The entry without what happened. `long` are the long items of its log.
    #[inline(always)]
    pub(crate) fn head(&self, long: &[LongItem]) -> Head
        requires { FitsItems (length long.now) self.now }
        ensures { result ≡ head_in (long_form long.now self.now).item }
    {
        match self {
            Item::Access { access, head, .. } | Item::Direct { access, head, .. } => {
                access_head(access, head)
            }
            Item::Word { word, .. } => access_head(&word.access(), &word.head()),
            Item::Call {
                initiator,
                object,
                head,
                ..
            } => full_head(head, *initiator, ObjectNo::Hop(*object as u32)),
            Item::Take {
                initiator,
                object,
                head,
                ..
            }
            | Item::Acquire {
                initiator,
                object,
                head,
                ..
            }
            | Item::Release {
                initiator,
                object,
                head,
                ..
            } => full_head(head, *initiator, ObjectNo::Pool(*object as u32)),
            Item::Long(place) => head_of(&long[*place]),
        }
    }

    // What happened, and for an access none.
    pub(crate) fn what(&self, long: &[LongItem]) -> Option<What>
        requires { FitsItems (length long.now) self.now }
        ensures { result ≡ plain_in (long_form long.now self.now).item.event }
    {
        match self {
            Item::Access { .. } | Item::Direct { .. } | Item::Word { .. } => None,
            Item::Call { phase, answer, .. } => Some(What::Call {
                phase: *phase,
                answer: *answer,
            }),
            Item::Take { slot, .. } => Some(What::Take { slot: *slot }),
            Item::Acquire { slot, .. } => Some(What::Acquire { slot: *slot }),
            Item::Release { slot, freed, .. } => Some(What::Release {
                slot: *slot,
                freed: *freed,
            }),
            Item::Long(place) => what_of(&long[*place]),
        }
    }

    // The plain parts of an access, and for any other entry none.
    #[inline(always)]
    pub(crate) fn facts(&self, long: &[LongItem]) -> Option<Facts>
        requires { FitsItems (length long.now) self.now }
        ensures { result ≡ facts_from (long_form long.now self.now).item.event }
    {
        match self {
            Item::Access {
                way,
                length,
                access,
                ..
            } => Some(short_facts(full_way(*way), *length, access)),
            Item::Word { way, length, word } => Some(short_facts(
                full_way(*way),
                *length as u16,
                &word.access(),
            )),
            Item::Direct {
                gate,
                length,
                access,
                ..
            } => Some(short_facts(Way::Direct(*gate as u32), *length, access)),
            Item::Long(place) => facts_of(&long[*place]),
            _ => None,
        }
    }

    // An access, with where its bytes stand, and for any other entry none. Where they stand in the item itself, it
    // comes with those.
    #[inline(always)]
    pub(crate) fn access(&self, long: &[LongItem]) -> Option<(PlacedAccess, Option<&[u8]>)>
        requires { FitsItems (length long.now) self.now }
        ensures access { option_map (λ r. r.0) result ≡ access_in (long_form long.now self.now).item }
        ensures own { IfSome result (λ r. option_map (λ b. b.now) r.1 ≡ (long_form long.now self.now).own) }
    {
        match self {
            Item::Access {
                way,
                length,
                access,
                head,
            } => Some((placed_access(full_way(*way), *length, access, head), None)),
            Item::Direct {
                gate,
                length,
                access,
                head,
            } => {
                let way = Way::Direct(*gate as u32);
                Some((placed_access(way, *length, access, head), None))
            }
            Item::Word { way, length, word } => {
                let (way, length) = (full_way(*way), *length as u16);
                let access = placed_access(way, length, &word.access(), &word.head());
                Some((access, Some(word.bytes.as_slice())))
            }
            Item::Long(place) => Some((access_of(&long[*place])?, None)),
            _ => None,
        }
    }
}

impl Word {
    // What it has alike with other accesses. Its bytes stand from 0 on.
    #[inline(always)]
    fn access(&self) -> ShortAccess
        ensures { result ≡ word_access self.now }
    {
        ShortAccess {
            command: self.command,
            initiator: self.initiator,
            object: self.object,
            start: 0,
            offset: self.offset,
        }
    }

    #[inline(always)]
    fn head(&self) -> ShortHead
        ensures { result ≡ word_head self.now }
    {
        ShortHead {
            time: self.time as Ps,
            position: self.position,
            seq: self.seq,
        }
    }
}

// An access in the short form, where it has one: it is one of a memory that answered OK, its numbers
// are small, its width is its length, and just the bytes of its length were kept.
#[inline(always)]
pub(crate) fn short_access(head: Head, facts: Facts, span: Span) -> Option<Item>
    requires { IsOrdered span }
    ensures { IfSome result (IsShortFor (item_for head span.start (events.Access (stored_at facts span)))) }
{
    let (ObjectNo::Memory(memory), Response::Ok) = (head.object, facts.status) else {
        return None;
    };
    if !is_short(&head, memory) || !has_short_numbers(&facts) || !has_data_alone(&facts, &span) {
        return None;
    }
    let length = facts.length as u16;
    let access = ShortAccess {
        command: facts.command,
        initiator: head.txn.initiator as u8,
        object: memory as u16,
        start: span.start,
        offset: facts.offset as u32,
    };
    let head = short_head(&head);
    Some(match facts.way {
        Way::Direct(gate) => Item::Direct {
            gate: in_one_byte(gate)?,
            length,
            access,
            head,
        },
        way => Item::Access {
            way: short_way(way)?,
            length,
            access,
            head,
        },
    })
}

// An access in the short form with its bytes, where it has one.
#[inline(always)]
pub(crate) fn short_word(
    head: Head,
    facts: Facts,
    sent: &[u8],
    enables: &[u8],
    got: &[u8],
) -> Option<Item>
    ensures { IfSome result (IsWordFor head facts sent.now enables.now got.now) }
{
    if facts.length > WORD as u64 || facts.width != facts.length || facts.status != Response::Ok {
        return None;
    }
    let ObjectNo::Memory(memory) = head.object else {
        return None;
    };
    if !is_short(&head, memory) || head.time > u32::MAX as u64 || facts.offset > u32::MAX as u64 {
        return None;
    }
    let (data, other) = match facts.command {
        Command::Read => (got, sent),
        Command::Write | Command::Ignore => (sent, got),
        Command::FetchAdd => return None,
    };
    if data.len() as u64 != facts.length || !other.is_empty() || !enables.is_empty() {
        return None;
    }
    let word = Word {
        command: facts.command,
        initiator: head.txn.initiator as u8,
        object: memory as u16,
        offset: facts.offset as u32,
        position: head.position as u32,
        seq: head.txn.seq as u32,
        time: head.time as u32,
        bytes: word_of(data),
    };
    Some(Item::Word {
        way: short_way(facts.way)?,
        length: facts.length as u8,
        word,
    })
}

// Most data are of 4 or 8 bytes, which take no call.
#[inline(always)]
fn word_of(bytes: &[u8]) -> [u8; WORD]
    requires { length bytes.now ≤ 8 }
    ensures { (length result ≡ 8) × (slice_range result 0 (length bytes.now) ≡ bytes.now) }
{
    let mut word = [0; WORD];
    match bytes.len() {
        8 => word.copy_from_slice(bytes),
        4 => word[..4].copy_from_slice(bytes),
        count => word[..count].copy_from_slice(bytes),
    }
    word
}

// A call at a hop in the short form, where it has one.
#[inline(always)]
fn short_call(head: Head, phase: Phase, answer: TlmSync) -> Option<Item>
    ensures { IfSome result (IsShortFor (item_for head 0 (events.Plain (Call phase answer)))) }
{
    let ObjectNo::Hop(hop) = head.object else {
        return None;
    };
    if !is_short(&head, hop) {
        return None;
    }
    Some(Item::Call {
        phase,
        answer,
        initiator: head.txn.initiator as u8,
        object: hop as u16,
        head: short_head(&head),
    })
}

// An entry that is no access in the short form, where it has one.
#[inline(always)]
pub(crate) fn short_event(head: Head, event: Plain) -> Option<Item>
    ensures { IfSome result (IsShortFor (item_for head 0 (events.Plain event))) }
{
    if let Plain::Call { phase, answer } = event {
        return short_call(head, phase, answer);
    }
    let ObjectNo::Pool(pool) = head.object else {
        return None;
    };
    if !is_short(&head, pool) {
        return None;
    }
    let initiator = head.txn.initiator as u8;
    let object = pool as u16;
    let head = short_head(&head);
    match event {
        Plain::Take { slot } => Some(Item::Take {
            initiator,
            object,
            slot,
            head,
        }),
        Plain::Acquire { slot } => Some(Item::Acquire {
            initiator,
            object,
            slot,
            head,
        }),
        Plain::Release { slot, freed } => Some(Item::Release {
            freed,
            initiator,
            object,
            slot,
            head,
        }),
        _ => None,
    }
}

// The numbers of an entry at the object of this number are as small as the short form asks.
#[inline(always)]
fn is_short(head: &Head, object: u32) -> bool
    ensures { IsTrue result → (head.now.position < 2 ^ 32) × (head.now.txn.seq < 2 ^ 32) × (head.now.txn.initiator < 2 ^ 8) × (object < 2 ^ 16) }
{
    head.position <= u32::MAX as u64
        && head.txn.seq <= u32::MAX as u64
        && head.txn.initiator <= u8::MAX as u32
        && object <= u16::MAX as u32
}

#[inline(always)]
fn has_short_numbers(facts: &Facts) -> bool
    ensures { IsTrue result → (facts.now.offset < 2 ^ 32) × (facts.now.length < 2 ^ 16) × (facts.now.width ≡ facts.now.length) }
{
    facts.offset <= u32::MAX as u64
        && facts.length <= u16::MAX as u64
        && facts.width == facts.length
}

// Of the access just the bytes of its length were kept: what a read got, or another command sent. Of a
// fetch_add both are kept.
#[inline(always)]
fn has_data_alone(facts: &Facts, span: &Span) -> bool
    requires { IsOrdered span.now }
    ensures { IsTrue result → span.now ≡ short_span facts.now.command span.now.start facts.now.length }
{
    let alone = match facts.command {
        Command::Read => span.got_start == span.start,
        Command::Write | Command::Ignore => span.enables_start == span.end,
        Command::FetchAdd => false,
    };
    alone && (span.end - span.start) as u64 == facts.length
}

// An access in the short form, with where its bytes stand.
#[inline(always)]
fn placed_access(way: Way, length: u16, access: &ShortAccess, head: &ShortHead) -> PlacedAccess
    requires { access.now.start + length < 2 ^ 32 }
    ensures { Some result ≡ access_in (full_access way length access.now head.now) }
{
    PlacedAccess {
        head: access_head(access, head),
        facts: short_facts(way, length, access),
        span: short_span(access.command, access.start, length),
    }
}

// The head of an access in the short form.
#[inline(always)]
fn access_head(access: &ShortAccess, head: &ShortHead) -> Head
    ensures { result ≡ full_head head.now access.now.initiator (Memory access.now.object) }
{
    full_head(
        head,
        access.initiator,
        ObjectNo::Memory(access.object as u32),
    )
}

// The plain parts of an access in the short form.
#[inline(always)]
fn short_facts(way: Way, length: u16, access: &ShortAccess) -> Facts
    ensures { result ≡ short_facts way length access.now }
{
    Facts {
        way,
        command: access.command,
        offset: access.offset as u64,
        length: length as u64,
        width: length as u64,
        status: Response::Ok,
    }
}

// Where the bytes of an access in the short form stand.
#[inline(always)]
fn short_span(command: Command, start: u32, length: u16) -> Span
    requires { start + length < 2 ^ 32 }
    ensures { result ≡ short_span command start length }
{
    let end = start + length as u32;
    let sent = match command {
        Command::Read => start,
        Command::Write | Command::Ignore | Command::FetchAdd => end,
    };
    Span {
        start,
        enables_start: sent,
        got_start: sent,
        end,
    }
}

// The head in the short form.
#[inline(always)]
fn short_head(head: &Head) -> ShortHead
    requires { (head.now.position < 2 ^ 32) × (head.now.txn.seq < 2 ^ 32) }
    ensures { result ≡ record { time = head.now.time; position = head.now.position; seq = head.now.txn.seq } }
{
    ShortHead {
        time: head.time,
        position: head.position as u32,
        seq: head.txn.seq as u32,
    }
}

#[inline(always)]
fn full_head(head: &ShortHead, initiator: u8, object: ObjectNo) -> Head
    ensures { result ≡ full_head head.now initiator object }
{
    Head {
        position: head.position as u64,
        object,
        txn: TxnId {
            initiator: initiator as u32,
            seq: head.seq as u64,
        },
        time: head.time,
    }
}

// The way in the short form, where it has one.
#[inline(always)]
fn short_way(way: Way) -> Option<ShortWay>
    ensures { IfSome result (λ short. full_way short ≡ way) }
{
    match way {
        Way::Blocking => Some(ShortWay::Blocking),
        Way::FourPhase => Some(ShortWay::FourPhase),
        Way::Direct(_) => None,
        Way::Debug => Some(ShortWay::Debug),
    }
}

#[inline(always)]
fn full_way(way: ShortWay) -> Way
    ensures { result ≡ full_way way }
{
    match way {
        ShortWay::Blocking => Way::Blocking,
        ShortWay::FourPhase => Way::FourPhase,
        ShortWay::Debug => Way::Debug,
    }
}

// The number, where it is so small.
#[inline(always)]
pub(crate) fn in_one_byte(number: u32) -> Option<u8>
    ensures { IfSome result (λ byte. byte ≡ number) }
{
    if number > u8::MAX as u32 {
        return None;
    }
    Some(number as u8)
}
