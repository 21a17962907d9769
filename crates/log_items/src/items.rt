// The items of a log: those of most entries in a brief or a short form, and the others in a list of their own.
ghost use Rattle.std.specs.Prelude.{◌≡◌, ◌+◌, ◌^◌, ◌<◌, [], ◌∷◌, ◌++◌, length, Some, IsOk, IfOk, OnOk, OnErr, IfSome, slice_get, option_map, option_and_then, true, false};
ghost use Rattle.log_items.specs.Items.{access_in, brief_item, facts_from, head_in, item_for, long_form, placed, plain_in, stored_at, IsOrdered, FitsItems, HasWord};
ghost use Rattle.log_items.specs.declared.long.Event.TheVariants as events;

use crate::brief::{BriefEvent, BriefItems, brief_event, plain_of};
use crate::item::{Item, short_access, short_event, short_word};
use crate::long::{
    Event, LongItem, PlacedAccess, Plain, Span, copied_head, long_item, stored_access,
};
use std::alloc::Global;
use std::marker::Model;
use tlm_types::{Facts, Head, Memory, What};

/// The items of a log. Contracts see the list of them in their long form, each with the bytes of its entry where they
/// stand in the item itself, and the room that was made for them.
#[derive(Drop)]
pub struct Items {
    // The first ones, where they are brief.
    brief: BriefItems,
    items: Vec<Item>,
    long: Vec<LongItem>,
    room: u64,
}

impl Model for Items {
    ghost use Rattle.std.specs.Prelude.{◌++◌, map, vec_capacity};
    ghost use Rattle.log_items.specs.Items.{AreItems, ItemsView, long_form};

    ghost Value = { ItemsView };

    ghost view = { λ l. record { items = l.brief.items ++ map (long_form l.long.items) l.items.items; room = l.room } };

    ghost invariant = { λ l. AreItems l.items.items l.long.items l.room (vec_capacity l.items) (vec_capacity l.long) };
}

impl Items {
    /// No items, with room for so many. Its only error is want of memory.
    // Memory that no item was written to costs nothing, so there is room for each form of each.
    pub fn with_room(alloc: Global, room: u64) -> Result<Items, Memory>
        ensures { IfOk result (λ l. l ≡ record { items = []; room = room }) }
    {
        let brief = BriefItems::with_room(alloc, room)?;
        let items = Vec::with_capacity(alloc, room as usize)?;
        let long = Vec::with_capacity(alloc, room as usize)?;
        Ok(Items {
            brief,
            items,
            long,
            room,
        })
    }

    /// How many there are.
    pub fn len(&self) -> usize
        ensures len { result ≡ length self.now.items }
        ensures small { result < 2 ^ 63 + 2 ^ 33 }
    {
        self.brief.len() + self.items.len()
    }

    /// For how many room was made.
    pub fn room(&self) -> u64
        ensures { result ≡ self.now.room }
    {
        self.room
    }

    /// Forgets them all.
    pub fn clear(&mut self)
        ensures { self.new ≡ record self.old { items = [] } }
    {
        self.brief.clear();
        self.items.clear();
        self.long.clear();
    }

    /// Appends an entry that is no access. It is `Ok` where there is room for it. Its only error is want of memory.
    pub fn push_event(&mut self, head: Head, event: Plain) -> Result<(), Memory>
        ensures ok { OnOk result (self.new ≡ record self.old { items = self.old.items ++ placed (item_for head 0 (events.Plain event)) ∷ [] }) }
        ensures err { OnErr result (self.new ≡ self.old) }
        ensures roomy { length self.old.items < self.old.room → IsOk result }
    {
        match brief_event(event) {
            Some(event) => self.push_brief(head, event),
            None => self.push_plain(head, event),
        }
    }

    /// Appends what happened at a hop or in a pool, as `push_event` does.
    #[inline(always)]
    pub fn push_brief(&mut self, head: Head, event: BriefEvent) -> Result<(), Memory>
        ensures ok { OnOk result (self.new ≡ record self.old { items = self.old.items ++ brief_item head event ∷ [] }) }
        ensures err { OnErr result (self.new ≡ self.old) }
        ensures roomy { length self.old.items < self.old.room → IsOk result }
    {
        if self.items.is_empty() && self.brief.push(&head, event) {
            return Ok(());
        }
        self.push_wide(copied_head(&head), event)
    }

    // The same, where it isn't kept in the brief form. Most such entries are.
    #[cold]
    #[inline(never)]
    fn push_wide(&mut self, head: Head, event: BriefEvent) -> Result<(), Memory>
        ensures ok { OnOk result (self.new ≡ record self.old { items = self.old.items ++ brief_item head event ∷ [] }) }
        ensures err { OnErr result (self.new ≡ self.old) }
        ensures roomy { length self.old.items < self.old.room → IsOk result }
    {
        self.push_plain(head, plain_of(event))
    }

    // Appends an entry that is no access in a short or a long form.
    fn push_plain(&mut self, head: Head, event: Plain) -> Result<(), Memory>
        ensures ok { OnOk result (self.new ≡ record self.old { items = self.old.items ++ placed (item_for head 0 (events.Plain event)) ∷ [] }) }
        ensures err { OnErr result (self.new ≡ self.old) }
        ensures roomy { length self.old.items < self.old.room → IsOk result }
    {
        match short_event(head, event) {
            Some(item) => self.push_short(item),
            None => self.push_long(long_item(head, 0, Event::Plain(event))),
        }
    }

    /// Appends an access whose bytes stand there, as `push_event` does.
    #[inline(always)]
    pub fn push_access(&mut self, head: Head, facts: Facts, span: Span) -> Result<(), Memory>
        requires { IsOrdered span }
        ensures ok { OnOk result (self.new ≡ record self.old { items = self.old.items ++ placed (item_for head span.start (events.Access (stored_at facts span))) ∷ [] }) }
        ensures err { OnErr result (self.new ≡ self.old) }
        ensures roomy { length self.old.items < self.old.room → IsOk result }
    {
        match short_access(head, facts, span) {
            Some(item) => self.push_short(item),
            None => {
                let access = stored_access(facts, span);
                self.push_long(long_item(head, span.start, Event::Access(access)))
            }
        }
    }

    /// Appends an access whose bytes fit into an item, as `push_event` does, and answers whether they do.
    #[inline(always)]
    pub fn push_word(
        &mut self,
        head: Head,
        facts: Facts,
        sent: &[u8],
        enables: &[u8],
        got: &[u8],
    ) -> Result<bool, Memory>
        ensures word { result ≡ Ok true → HasWord self.old self.new head facts sent.now enables.now got.now }
        ensures not { result ≡ Ok false → self.new ≡ self.old }
        ensures err { OnErr result (self.new ≡ self.old) }
        ensures roomy { length self.old.items < self.old.room → IsOk result }
    {
        let Some(word) = short_word(head, facts, sent, enables, got) else {
            return Ok(false);
        };
        self.push_short(word)?;
        Ok(true)
    }

    #[inline(always)]
    fn push_short(&mut self, item: Item) -> Result<(), Memory>
        requires { FitsItems 0 item }
        ensures ok { OnOk result (self.new ≡ record self.old { items = self.old.items ++ long_form [] item ∷ [] }) }
        ensures err { OnErr result (self.new ≡ self.old) }
        ensures roomy { length self.old.items < self.old.room → IsOk result }
    {
        if self.items.len() == self.items.capacity() {
            self.items.reserve(1)?;
        }
        self.items.push_reserved(item);
        Ok(())
    }

    // Few entries have no short form.
    #[cold]
    fn push_long(&mut self, item: LongItem) -> Result<(), Memory>
        ensures ok { OnOk result (self.new ≡ record self.old { items = self.old.items ++ placed item ∷ [] }) }
        ensures err { OnErr result (self.new ≡ self.old) }
        ensures roomy { length self.old.items < self.old.room → IsOk result }
    {
        self.items.reserve(1)?;
        let place = self.long.len();
        self.long.push(item)?;
        self.items.push_reserved(Item::Long(place));
        Ok(())
    }

    /// The entry at this index without what happened.
    #[inline(always)]
    pub fn head(&self, index: usize) -> Head
        requires { index < length self.now.items }
        ensures { option_map (λ i. head_in i.item) (slice_get self.now.items index) ≡ Some result }
    {
        match self.brief.head(index) {
            Some(head) => head,
            None => self.items[index - self.brief.len()].head(&self.long),
        }
    }

    /// What happened, and for an access none.
    pub fn what(&self, index: usize) -> Option<What>
        requires { index < length self.now.items }
        ensures { result ≡ option_and_then (λ i. plain_in i.item.event) (slice_get self.now.items index) }
    {
        match self.brief.get(index) {
            Some((_, event)) => Some(event.what()),
            None => self.items[index - self.brief.len()].what(&self.long),
        }
    }

    /// An entry of a hop or a pool in the brief form, where it is kept so.
    #[inline(always)]
    pub fn brief(&self, index: usize) -> Option<(Head, BriefEvent)>
        ensures { IfSome result (λ r. slice_get self.now.items index ≡ Some (brief_item r.0 r.1)) }
    {
        self.brief.get(index)
    }

    /// The plain parts of an access, and for any other entry none.
    #[inline(always)]
    pub fn facts(&self, index: usize) -> Option<Facts>
        requires { index < length self.now.items }
        ensures { result ≡ option_and_then (λ i. facts_from i.item.event) (slice_get self.now.items index) }
    {
        if self.brief.has(index) {
            return None;
        }
        self.items[index - self.brief.len()].facts(&self.long)
    }

    /// An access, with where its bytes stand, and for any other entry none. Where they stand in its item, it comes with
    /// those.
    #[inline(always)]
    pub fn access(&self, index: usize) -> Option<(PlacedAccess, Option<&[u8]>)>
        requires { index < length self.now.items }
        ensures access { option_map (λ r. r.0) result ≡ option_and_then (λ i. access_in i.item) (slice_get self.now.items index) }
        ensures own { IfSome result (λ r. option_map (λ b. b.now) r.1 ≡ option_and_then (λ i. i.own) (slice_get self.now.items index)) }
    {
        if self.brief.has(index) {
            return None;
        }
        self.items[index - self.brief.len()].access(&self.long)
    }
}
