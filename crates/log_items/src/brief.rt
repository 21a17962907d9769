// The briefest form of an entry: one that is no access, of a log whose entries are all of one object. The logs of hops
// and pools have such entries alone, and together they are longer than those of the memories.
ghost use Rattle.std.specs.Prelude.{◌≡◌, ◌^◌, ◌<◌, ◌≤◌, ◌↔◌, ◌++◌, ◌∷◌, [], false, length, None, Some, IfOk, IfSome, IsSome, IsTrue, option_and_then, option_map, slice_get};
ghost use Rattle.log_items.specs.Items.{access_in, brief_head, brief_item, brief_plain, brief_what, facts_from, head_in};
ghost use Rattle.tlm_types.specs.declared.entry.What.TheVariants as whats;
ghost use Rattle.log_items.specs.declared.long.Plain.TheVariants.{Call};

use crate::item::in_one_byte;
use crate::long::{Plain, plain_event};
use std::alloc::Global;
use std::marker::Model;
use std::mem::size_of;
use tlm_types::{Head, Memory, ObjectNo, Phase, TlmSync, TxnId, What};

// Its numbers are below 2^32, and its initiator is below 2^8. The object stands beside the list.
#[derive(Clone, Copy)]
pub(crate) struct Brief {
    position: u32,
    time: u32,
    seq: u32,
    initiator: u8,
    event: BriefEvent,
}

const _: () = prove!(size_of::<Brief>() == 16);

/// What happened at a hop or in a pool, in three bytes: a slot is below 256.
#[derive(Clone, Copy)]
pub enum BriefEvent {
    /// A call on a hop that was accepted.
    Accepted { phase: Phase },
    /// A call on a hop that was answered by the next phase.
    Updated { phase: Phase, next: Phase },
    /// A call on a hop that completed the transaction.
    Completed { phase: Phase },
    /// A payload of a pool was taken, acquired or released (IEEE 1666-2011, clause 14.5).
    Take { slot: u8 },
    Acquire { slot: u8 },
    Release { slot: u8, freed: bool },
}

// A list of brief items, with room for so many. Contracts see it in the long form.
#[derive(Drop)]
pub(crate) struct BriefItems {
    items: Vec<Brief>,
    object: ObjectNo,
    room: usize,
}

// For so many brief items room is made at most.
const ROOM_MAX: u64 = 1 << 32;

impl Model for BriefItems {
    ghost use Rattle.std.specs.Prelude.{◌≤◌, ◌^◌, length, map, vec_capacity};
    ghost use Rattle.log_items.specs.Items.{BriefView, brief_form};

    ghost Value = { BriefView };

    ghost view = { λ l. record { items = map (brief_form l.object) l.items.items; room = l.room } };

    ghost invariant = { λ l. (length l.items.items ≤ l.room) × (l.room ≤ vec_capacity l.items) × (l.room ≤ 2 ^ 32) };
}

impl BriefItems {
    // None, with room for so many, or for as many as there may be. Its only error is want of memory.
    pub(crate) fn with_room(alloc: Global, room: u64) -> Result<BriefItems, Memory>
        ensures { IfOk result (λ l. l.items ≡ []) }
    {
        let room = room.min(ROOM_MAX) as usize;
        let items = Vec::with_capacity(alloc, room)?;
        Ok(BriefItems {
            items,
            object: ObjectNo::Hop(0),
            room,
        })
    }

    #[inline(always)]
    pub(crate) fn len(&self) -> usize
        ensures len { result ≡ length self.now.items }
        ensures few { result ≤ 2 ^ 32 }
    {
        self.items.len()
    }

    pub(crate) fn clear(&mut self)
        ensures { self.new ≡ record self.old { items = [] } }
    {
        self.items.clear();
    }

    // Appends an entry where its numbers are small and there is room for it, and answers whether it did.
    #[inline(always)]
    pub(crate) fn push(&mut self, head: &Head, event: BriefEvent) -> bool
        ensures pushed { IsTrue result → self.new ≡ record self.old { items = self.old.items ++ brief_item head.now event ∷ [] } }
        ensures not { result ≡ false → self.new ≡ self.old }
    {
        if self.items.is_empty() {
            self.object = head.object;
        }
        if self.object != head.object || self.items.len() >= self.room || !is_brief(head) {
            return false;
        }
        self.items.push_reserved(Brief {
            position: head.position as u32,
            time: head.time as u32,
            seq: head.txn.seq as u32,
            initiator: head.txn.initiator as u8,
            event,
        });
        true
    }

    // There is an entry at this index. It is no access.
    #[inline(always)]
    pub(crate) fn has(&self, index: usize) -> bool
        ensures there { IsTrue result ↔ (index < length self.now.items) }
        ensures facts { IsTrue result → option_and_then (λ i. facts_from i.item.event) (slice_get self.now.items index) ≡ None }
        ensures access { IsTrue result → option_and_then (λ i. access_in i.item) (slice_get self.now.items index) ≡ None }
    {
        index < self.items.len()
    }

    // The entry at this index without what happened. There is none behind the last one.
    #[inline(always)]
    pub(crate) fn head(&self, index: usize) -> Option<Head>
        ensures { result ≡ option_map (λ i. head_in i.item) (slice_get self.now.items index) }
    {
        let item = self.items.get(index)?;
        Some(item.head(self.object))
    }

    // The entry at this index with what happened, in the brief form. There is none behind the last one.
    #[inline(always)]
    pub(crate) fn get(&self, index: usize) -> Option<(Head, BriefEvent)>
        ensures there { IsSome result ↔ (index < length self.now.items) }
        ensures item { IfSome result (λ r. slice_get self.now.items index ≡ Some (brief_item r.0 r.1)) }
    {
        let item = self.items.get(index)?;
        Some((item.head(self.object), item.event))
    }
}

impl Brief {
    #[inline(always)]
    fn head(&self, object: ObjectNo) -> Head
        ensures { result ≡ brief_head object self.now }
    {
        Head {
            position: self.position as u64,
            object,
            txn: TxnId {
                initiator: self.initiator as u32,
                seq: self.seq as u64,
            },
            time: self.time as u64,
        }
    }
}

impl BriefEvent {
    /// What happened in the brief form, where it has one.
    pub fn of(what: What) -> Option<BriefEvent>
        ensures { IfSome result (λ event. brief_what event ≡ what) }
    {
        if let What::Access { .. } = what {
            return None;
        }
        brief_event(plain_event(what))
    }

    /// A call at a hop.
    pub fn of_call(phase: Phase, answer: TlmSync) -> BriefEvent
        ensures { brief_what result ≡ whats.Call phase answer }
    {
        brief_call(phase, answer)
    }

    /// What happened.
    #[inline(always)]
    pub fn what(self) -> What
        ensures { result ≡ brief_what self }
    {
        match self {
            BriefEvent::Accepted { phase } => What::Call {
                phase,
                answer: TlmSync::Accepted,
            },
            BriefEvent::Updated { phase, next } => What::Call {
                phase,
                answer: TlmSync::Updated(next),
            },
            BriefEvent::Completed { phase } => What::Call {
                phase,
                answer: TlmSync::Completed,
            },
            BriefEvent::Take { slot } => What::Take { slot: slot as u32 },
            BriefEvent::Acquire { slot } => What::Acquire { slot: slot as u32 },
            BriefEvent::Release { slot, freed } => What::Release {
                slot: slot as u32,
                freed,
            },
        }
    }
}

// What happened, from the brief form.
pub(crate) fn plain_of(event: BriefEvent) -> Plain
    ensures { result ≡ brief_plain event }
{
    plain_event(event.what())
}

// The numbers of an entry are as small as the brief form asks.
#[inline(always)]
fn is_brief(head: &Head) -> bool
    ensures { IsTrue result → (head.now.position < 2 ^ 32) × (head.now.time < 2 ^ 32) × (head.now.txn.seq < 2 ^ 32) × (head.now.txn.initiator < 2 ^ 8) }
{
    head.position <= u32::MAX as u64
        && head.time <= u32::MAX as u64
        && head.txn.seq <= u32::MAX as u64
        && head.txn.initiator <= u8::MAX as u32
}

// A call at a hop.
fn brief_call(phase: Phase, answer: TlmSync) -> BriefEvent
    ensures { brief_plain result ≡ Call phase answer }
{
    match answer {
        TlmSync::Accepted => BriefEvent::Accepted { phase },
        TlmSync::Updated(next) => BriefEvent::Updated { phase, next },
        TlmSync::Completed => BriefEvent::Completed { phase },
    }
}

// What happened in the brief form, where it has one.
pub(crate) fn brief_event(event: Plain) -> Option<BriefEvent>
    ensures { IfSome result (λ brief. brief_plain brief ≡ event) }
{
    match event {
        Plain::Call { phase, answer } => Some(brief_call(phase, answer)),
        Plain::Take { slot } => Some(BriefEvent::Take {
            slot: in_one_byte(slot)?,
        }),
        Plain::Acquire { slot } => Some(BriefEvent::Acquire {
            slot: in_one_byte(slot)?,
        }),
        Plain::Release { slot, freed } => Some(BriefEvent::Release {
            slot: in_one_byte(slot)?,
            freed,
        }),
        _ => None,
    }
}
