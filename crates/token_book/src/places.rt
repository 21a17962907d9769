// The places of a wallet: the tickets of many objects.
ghost use Rattle.std.specs.Prelude.{IsSome, ◌≡◌, ◌⊎◌, ℕ, ◌+◌, ◌-◌, ◌<◌, ◌≤◌, ◌==◌, ◌↔◌, length, remove, slice_get, vec_len, vec_capacity, if◌then◌else◌, IfOk, IfSome, IfNone, IsTrue, Some, None};
ghost use Rattle.std.specs.Ordering.{nat_cmp};
ghost use Rattle.std.specs.FinMap as map;
ghost use Rattle.atomic_table.specs.Seated.{TableId};
ghost use Rattle.token_book.specs.Account.{amount_of, out_of};
ghost use Rattle.token_book.specs.Ticket.{entry_right, bytes_rights, IsTicket};
ghost use Rattle.token_book.specs.Pocket.{Pocket, tickets_in, bytes_in, rights_of, with_token};
ghost use Rattle.token_book.specs.Purse.{empty_purse, left_of, bytes_of, HasPlace, HasRoom, HasRoomForAll, IsOf, with_more, with_pocket, pocket_of, pulled, pulled_rights, put_in, AreApart};

use crate::place::ObjectRights;
use crate::ticket::Ticket;
use crate::tokens::{Book, Token, Tokens};
use std::alloc::Global;
use std::marker::Model;
use tlm_types::Memory;
use view_lists::take_from;

/// What is in a wallet. It has a place for each object of which it holds some, and its places are made with
/// it. Contracts see how many places it has, and what it holds of each object.
#[derive(Drop)]
pub struct Places {
    most: u32,
    places: Vec<ObjectRights>,
}

impl Model for Places {
    ghost use Rattle.token_book.specs.Purse.{Purse, purse_code, purse, IsPurse};

    ghost Value = { Purse };

    ghost coded = { purse_code };

    ghost view = { λ w. purse w.most w.places.items };

    ghost invariant = { λ w. IsPurse w.most w.places };
}

// The place of an object. Often that of an object stands at its own number.
fn index_of(places: &[ObjectRights], object: u32) -> Option<usize>
    requires apart { AreApart places.now }
    ensures found { IfSome result (λ i. (p : Pocket) × (slice_get places.now i ≡ Some (object, p)) × (map.find nat_cmp object places.now ≡ Some p)) }
    ensures none { IfNone result (map.find nat_cmp object places.now ≡ None) }
{
    let guess = object as usize;
    if guess < places.len() && places[guess].object() == object {
        return Some(guess);
    }
    for i in 0..places.len() {
        if places[i].object() == object {
            return Some(i);
        }
    }
    None
}

// The place of an object that has one. Nothing asks for the end of the list.
fn index_in(places: &[ObjectRights], object: u32) -> usize
    requires apart { AreApart places.now }
    requires held { IsSome (map.find nat_cmp object places.now) }
    ensures { (p : Pocket) × (slice_get places.now result ≡ Some (object, p)) × (map.find nat_cmp object places.now ≡ Some p) }
{
    let guess = object as usize;
    if guess < places.len() && places[guess].object() == object {
        return guess;
    }
    let mut i = 0;
    while places[i].object() != object {
        i += 1;
    }
    i
}

// Takes the place at an index out if it is empty.
fn drop_empty(places: &mut Vec<ObjectRights>, i: usize)
    requires { i < vec_len places.old }
    ensures items { (e : ℕ × Pocket) → slice_get places.old.items i ≡ Some e → places.new.items ≡ (if e.1.left + e.1.bytes == 0 then remove places.old.items i else places.old.items) }
    ensures len { vec_len places.new ≤ vec_len places.old }
    ensures capacity { vec_capacity places.new ≡ vec_capacity places.old }
{
    if places[i].is_empty() {
        take_from(places, i);
    }
}

impl Places {
    /// Room for this many objects, and nothing in it. Its only error is want of memory.
    pub fn new(alloc: Global, places: u32) -> Result<Places, Memory>
        ensures wallet { IfOk result (λ w. w ≡ empty_purse places) }
        ensures empty { IfOk result (λ w. (o : ℕ) → (left_of w o ≡ 0) × (bytes_of w o ≡ 0)) }
        ensures of { IfOk result (λ w. (table : TableId) → IsOf table w) }
    {
        Ok(Places {
            most: places,
            places: Vec::with_capacity(alloc, places as usize)?,
        })
    }

    // The place of an object.
    fn place(&self, object: u32) -> Option<&ObjectRights>
        ensures found { IfSome result (λ place. map.get self.now.held object ≡ Some place.now.1) }
        ensures none { IfNone result (map.get self.now.held object ≡ None) }
        ensures place { HasPlace self.now object ↔ (0 < left_of self.now object + bytes_of self.now object) }
    {
        match index_of(&self.places, object) {
            Some(i) => Some(&self.places[i]),
            None => None,
        }
    }

    /// How many tickets of the object it holds.
    pub fn left(&self, object: u32) -> u64
        ensures left { result ≡ left_of self.now object }
        ensures place { HasPlace self.now object ↔ (0 < left_of self.now object + bytes_of self.now object) }
    {
        match self.place(object) {
            Some(place) => place.left(),
            None => 0,
        }
    }

    /// How many bytes of the object it holds the right to.
    pub fn bytes(&self, object: u32) -> u64
        ensures bytes { result ≡ bytes_of self.now object }
        ensures place { HasPlace self.now object ↔ (0 < left_of self.now object + bytes_of self.now object) }
    {
        match self.place(object) {
            Some(place) => place.bytes(),
            None => 0,
        }
    }

    /// Whether it holds nothing.
    pub fn is_empty(&self) -> bool
        ensures { IsTrue result ↔ (self.now ≡ empty_purse self.now.places) }
    {
        self.places.is_empty()
    }

    // Keeps a place unless it is empty.
    #[inline(always)]
    fn keep(&mut self, place: ObjectRights)
        requires new { map.get self.old.held place.0 ≡ None }
        requires room { map.len self.old.held < self.old.places }
        ensures { self.new ≡ with_pocket self.old place.0 place.1 }
    {
        if place.is_empty() {
            return;
        }
        let Ok(()) = self.places.push(place) else {
            unreachable!()
        };
    }

    /// Takes out a ticket of the object for so many bytes. It has no bytes where it is for 0.
    #[inline(always)]
    pub fn pull(&mut self, tokens: &Tokens, object: u32, bytes: u64) -> Ticket
        requires of { IsOf tokens.now self.old }
        requires left { 0 < left_of self.old object }
        requires bytes { bytes ≤ bytes_of self.old object }
        ensures wallet { self.new ≡ pulled tokens.now self.old object bytes }
        ensures of { IsOf tokens.now self.new }
        ensures left { (o : ℕ) → left_of self.new o ≡ (if o == object then left_of self.old object - 1 else left_of self.old o) }
        ensures bytes { (o : ℕ) → bytes_of self.new o ≡ (if o == object then bytes_of self.old object - bytes else bytes_of self.old o) }
        ensures held { (o : ℕ) → HasPlace self.new o → HasPlace self.old o }
        ensures entry { result.entry ≡ entry_right tokens.now object }
        ensures rights { result.bytes ≡ bytes_rights tokens.now object bytes }
        ensures ticket { IsTicket tokens.now object result }
        ensures amount { amount_of result.bytes ≡ bytes }
    {
        let i = index_in(&self.places, object);
        let ticket = self.places[i].pull(tokens, bytes);
        drop_empty(&mut self.places, i);
        ticket
    }

    // Takes out so many tickets of the object and so many bytes of it at once.
    #[inline(always)]
    fn pull_rights(
        &mut self,
        tokens: &Tokens,
        object: u32,
        tickets: u64,
        bytes: u64,
    ) -> ObjectRights
        requires of { IsOf tokens.now self.old }
        requires some { 0 < tickets }
        requires left { tickets ≤ left_of self.old object }
        requires bytes { bytes ≤ bytes_of self.old object }
        ensures wallet { self.new ≡ pulled_rights tokens.now self.old object tickets bytes }
        ensures rights { result ≡ (object, rights_of tokens.now tickets bytes) }
    {
        let i = index_in(&self.places, object);
        let rights = self.places[i].pull_rights(tokens, tickets, bytes);
        drop_empty(&mut self.places, i);
        rights
    }

    /// Puts in a token of the name 0, which is tickets of its owner, or of the name 1, which is bytes.
    /// The owner has a place, or a place is free. A token of the amount 0 takes no place.
    pub fn put(&mut self, tokens: &Tokens, token: Token)
        requires of { IsOf tokens.now self.old }
        requires token { (token.table ≡ tokens.now) × (token.name < 2) }
        requires room { HasRoom self.old token.owner }
        ensures wallet { self.new ≡ put_in self.old token }
        ensures of { IsOf tokens.now self.new }
        ensures left { (o : ℕ) → left_of self.new o ≡ (if o == token.owner then left_of self.old o + tickets_in token else left_of self.old o) }
        ensures bytes { (o : ℕ) → bytes_of self.new o ≡ (if o == token.owner then bytes_of self.old o + bytes_in token else bytes_of self.old o) }
    {
        match index_of(&self.places, token.owner()) {
            Some(i) => self.places[i].add(tokens, token),
            None => self.keep(ObjectRights::of(tokens, token)),
        }
    }

    // Takes out all that it holds of one object. Where it holds nothing, it stays so.
    fn pop(&mut self) -> Option<ObjectRights>
        ensures some { IfSome result (λ place. (map.get self.old.held place.0 ≡ Some place.1) × (0 < place.1.left + place.1.bytes)) }
        ensures left { IfSome result (λ place. self.new ≡ record self.old { held = map.remove self.old.held place.0 }) }
        ensures fewer { IfSome result (λ _. map.len self.new.held < map.len self.old.held) }
        ensures none { IfNone result ((self.old ≡ empty_purse self.old.places) × (self.new ≡ self.old)) }
    {
        let place = self.places.pop()?;
        Some(place)
    }

    // Puts in what another wallet had of one object.
    #[inline(always)]
    fn put_place(&mut self, tokens: &Tokens, place: ObjectRights)
        requires of { IsOf tokens.now self.old }
        requires place { place.1.table ≡ tokens.now }
        requires room { HasRoom self.old place.0 }
        ensures { self.new ≡ with_more tokens.now self.old place.0 place.1 }
    {
        match index_of(&self.places, place.object()) {
            Some(i) => self.places[i].take_in(tokens, place),
            None => self.keep(place),
        }
    }

    /// Moves so many tickets of the object, and so many bytes of it, to others, which have room for it.
    pub fn give(&mut self, tokens: &Tokens, to: &mut Places, object: u32, tickets: u64, bytes: u64)
        requires of { IsOf tokens.now self.old × IsOf tokens.now to.old }
        requires some { 0 < tickets }
        requires left { tickets ≤ left_of self.old object }
        requires bytes { bytes ≤ bytes_of self.old object }
        requires room { HasRoom to.old object }
        ensures wallet { self.new ≡ pulled_rights tokens.now self.old object tickets bytes }
        ensures of { IsOf tokens.now self.new × IsOf tokens.now to.new }
        ensures left { (o : ℕ) → left_of self.new o ≡ (if o == object then left_of self.old object - tickets else left_of self.old o) }
        ensures bytes { (o : ℕ) → bytes_of self.new o ≡ (if o == object then bytes_of self.old object - bytes else bytes_of self.old o) }
        ensures held { (o : ℕ) → HasPlace self.new o → HasPlace self.old o }
        ensures other { to.new ≡ with_more tokens.now to.old object (rights_of tokens.now tickets bytes) }
        ensures left_there { (o : ℕ) → left_of to.new o ≡ (if o == object then left_of to.old o + tickets else left_of to.old o) }
        ensures bytes_there { (o : ℕ) → bytes_of to.new o ≡ (if o == object then bytes_of to.old o + bytes else bytes_of to.old o) }
        ensures held_there { (o : ℕ) → HasPlace to.new o → HasPlace to.old o ⊎ (o ≡ object) }
    {
        let rights = self.pull_rights(tokens, object, tickets, bytes);
        to.put_place(tokens, rights);
    }

    /// Moves all that others hold into these, which have room for it. The others are empty then.
    pub fn put_all(&mut self, tokens: &Tokens, from: &mut Places)
        requires of { IsOf tokens.now self.old × IsOf tokens.now from.old }
        requires room { HasRoomForAll self.old from.old }
        ensures of { IsOf tokens.now self.new }
        ensures places { self.new.places ≡ self.old.places }
        ensures left { (o : ℕ) → left_of self.new o ≡ left_of self.old o + left_of from.old o }
        ensures bytes { (o : ℕ) → bytes_of self.new o ≡ bytes_of self.old o + bytes_of from.old o }
        ensures empty { from.new ≡ empty_purse from.old.places }
        ensures full { (o : ℕ) → HasPlace self.new o → 0 < left_of self.new o + bytes_of self.new o }
    {
        while let Some(place) = from.pop() {
            self.put_place(tokens, place);
        }
        let _ = &self.places;
    }

    // Takes out all that it holds of this object.
    fn take_out(&mut self, object: u32) -> Option<ObjectRights>
        ensures some { IfSome result (λ place. (place.0 ≡ object) × (map.get self.old.held object ≡ Some place.1) × (0 < place.1.left + place.1.bytes)) }
        ensures left { IfSome result (λ _. self.new ≡ record self.old { held = map.remove self.old.held object }) }
        ensures none { IfNone result ((map.get self.old.held object ≡ None) × (self.new ≡ self.old)) }
    {
        let Some(i) = index_of(&self.places, object) else {
            return None;
        };
        Some(take_from(&mut self.places, i))
    }

    /// Retires all tickets and bytes that it holds of the owner of a book into that book. What it holds of
    /// others stays.
    pub fn hand_back(&mut self, tokens: &Tokens, book: &mut Book)
        requires of { IsOf tokens.now self.old }
        requires book { book.old.table ≡ tokens.now }
        ensures of { IsOf tokens.now self.new }
        ensures others { (o : ℕ) → (o ≡ book.old.owner → ⊥) → left_of self.new o ≡ left_of self.old o }
        ensures none { left_of self.new book.old.owner ≡ 0 }
        ensures book { (book.new.table ≡ book.old.table) × (book.new.owner ≡ book.old.owner) }
        ensures tickets { out_of 0 book.new.out + left_of self.old book.old.owner ≡ out_of 0 book.old.out }
        ensures bytes { out_of 1 book.new.out + bytes_of self.old book.old.owner ≡ out_of 1 book.old.out }
    {
        if let Some(rights) = self.take_out(book.owner()) {
            rights.retire(tokens, book);
        }
    }
}
