// Wallets: the tickets of many objects.
ghost use Rattle.std.specs.Prelude.{◌≡◌, ◌⊎◌, ℕ, ◌+◌, ◌-◌, ◌<◌, ◌≤◌, ◌==◌, ◌↔◌, if◌then◌else◌, IfOk, IsTrue};
ghost use Rattle.atomic_table.specs.Seated.{TableId};
ghost use Rattle.token_book.specs.Account.{amount_of, out_of};
ghost use Rattle.token_book.specs.Ticket.{entry_right, bytes_rights, IsTicket};
ghost use Rattle.token_book.specs.Pocket.{tickets_in, bytes_in, rights_of};
ghost use Rattle.token_book.specs.Purse.{empty_purse, left_of, bytes_of, HasPlace, HasRoom, HasRoomForAll, IsOf, pulled, pulled_rights, put_in, with_more};

use crate::places::Places;
use crate::ticket::Ticket;
use crate::tokens::{Book, One, Token, Tokens};
use std::alloc::Global;
use std::marker::Model;
use tlm_types::Memory;

/// The tickets of many objects. It has a place for each object of which it holds some, and its places
/// are made with it. Contracts see how many places it has, and what it holds of each object.
// They are in a box, so that handing a payload on with its wallet moves no more than a pointer.
pub struct Wallet {
    all: Box<Places, Global>,
}

impl Model for Wallet {
    ghost use Rattle.token_book.specs.Purse.{Purse, purse_code};

    ghost Value = { Purse };

    ghost coded = { purse_code };

    ghost view = { λ w. w.all.value };
}

// Written out, so that crates above call it and needn't prove again how each part is let go of.
impl Drop for Wallet {
    fn drop(self) {
        let Wallet { all: _all } = self;
    }
}

impl Wallet {
    /// An empty wallet with room for this many objects. Its only error is want of memory.
    pub fn new(alloc: Global, places: u32) -> Result<Wallet, Memory>
        ensures wallet { IfOk result (λ w. w ≡ empty_purse places) }
        ensures empty { IfOk result (λ w. (o : ℕ) → (left_of w o ≡ 0) × (bytes_of w o ≡ 0)) }
        ensures of { IfOk result (λ w. (table : TableId) → IsOf table w) }
    {
        let places = Places::new(alloc, places)?;
        Ok(Wallet {
            all: Box::new(alloc, places)?,
        })
    }

    /// How many tickets of the object it holds.
    pub fn left(&self, object: u32) -> u64
        ensures left { result ≡ left_of self.now object }
        ensures place { HasPlace self.now object ↔ (0 < left_of self.now object + bytes_of self.now object) }
    {
        self.all.left(object)
    }

    /// How many bytes of the object it holds the right to.
    pub fn bytes(&self, object: u32) -> u64
        ensures bytes { result ≡ bytes_of self.now object }
        ensures place { HasPlace self.now object ↔ (0 < left_of self.now object + bytes_of self.now object) }
    {
        self.all.bytes(object)
    }

    /// Whether it holds nothing.
    pub fn is_empty(&self) -> bool
        ensures { IsTrue result ↔ (self.now ≡ empty_purse self.now.places) }
    {
        self.all.is_empty()
    }

    /// Takes out a ticket of the object for so many bytes. It has no bytes where it is for 0.
    #[inline(always)]
    pub fn pull(&mut self, tokens: &Tokens, object: u32, bytes: u64) -> Ticket
        requires of { IsOf tokens.now self.old }
        requires left { 0 < left_of self.old object }
        requires bytes { bytes ≤ bytes_of self.old object }
        ensures wallet { self.new ≡ pulled tokens.now self.old object bytes }
        ensures of { IsOf tokens.now self.new }
        ensures left { (o : ℕ) → left_of self.new o ≡ (if o == object then left_of self.old object - 1 else left_of self.old o) }
        ensures bytes { (o : ℕ) → bytes_of self.new o ≡ (if o == object then bytes_of self.old object - bytes else bytes_of self.old o) }
        ensures held { (o : ℕ) → HasPlace self.new o → HasPlace self.old o }
        ensures entry { result.entry ≡ entry_right tokens.now object }
        ensures rights { result.bytes ≡ bytes_rights tokens.now object bytes }
        ensures ticket { IsTicket tokens.now object result }
        ensures amount { amount_of result.bytes ≡ bytes }
    {
        self.all.pull(tokens, object, bytes)
    }

    /// Puts in a token of the name 0, which is tickets of its owner, or of the name 1, which is bytes.
    /// The owner has a place, or a place is free. A token of the amount 0 takes no place.
    pub fn put(&mut self, tokens: &Tokens, token: Token)
        requires of { IsOf tokens.now self.old }
        requires token { (token.table ≡ tokens.now) × (token.name < 2) }
        requires room { HasRoom self.old token.owner }
        ensures wallet { self.new ≡ put_in self.old token }
        ensures of { IsOf tokens.now self.new }
        ensures left { (o : ℕ) → left_of self.new o ≡ (if o == token.owner then left_of self.old o + tickets_in token else left_of self.old o) }
        ensures bytes { (o : ℕ) → bytes_of self.new o ≡ (if o == token.owner then bytes_of self.old o + bytes_in token else bytes_of self.old o) }
    {
        self.all.put(tokens, token);
    }

    /// Puts in a token of the amount 1, which is of this owner, as `put` does.
    pub fn put_one(&mut self, tokens: &Tokens, owner: u32, token: One)
        requires of { IsOf tokens.now self.old }
        requires owner { owner ≡ token.owner }
        requires token { (token.table ≡ tokens.now) × (token.name < 2) }
        requires room { HasRoom self.old token.owner }
        ensures wallet { self.new ≡ put_in self.old token }
        ensures of { IsOf tokens.now self.new }
        ensures left { (o : ℕ) → left_of self.new o ≡ (if o == token.owner then left_of self.old o + tickets_in token else left_of self.old o) }
        ensures bytes { (o : ℕ) → bytes_of self.new o ≡ (if o == token.owner then bytes_of self.old o + bytes_in token else bytes_of self.old o) }
    {
        self.all.put(tokens, token.into_token(owner));
    }

    /// Moves so many tickets of the object, and so many bytes of it, to another wallet, which has room for it.
    pub fn give(&mut self, tokens: &Tokens, to: &mut Wallet, object: u32, tickets: u64, bytes: u64)
        requires of { IsOf tokens.now self.old × IsOf tokens.now to.old }
        requires some { 0 < tickets }
        requires left { tickets ≤ left_of self.old object }
        requires bytes { bytes ≤ bytes_of self.old object }
        requires room { HasRoom to.old object }
        ensures wallet { self.new ≡ pulled_rights tokens.now self.old object tickets bytes }
        ensures of { IsOf tokens.now self.new × IsOf tokens.now to.new }
        ensures left { (o : ℕ) → left_of self.new o ≡ (if o == object then left_of self.old object - tickets else left_of self.old o) }
        ensures bytes { (o : ℕ) → bytes_of self.new o ≡ (if o == object then bytes_of self.old object - bytes else bytes_of self.old o) }
        ensures held { (o : ℕ) → HasPlace self.new o → HasPlace self.old o }
        ensures other { to.new ≡ with_more tokens.now to.old object (rights_of tokens.now tickets bytes) }
        ensures left_there { (o : ℕ) → left_of to.new o ≡ (if o == object then left_of to.old o + tickets else left_of to.old o) }
        ensures bytes_there { (o : ℕ) → bytes_of to.new o ≡ (if o == object then bytes_of to.old o + bytes else bytes_of to.old o) }
        ensures held_there { (o : ℕ) → HasPlace to.new o → HasPlace to.old o ⊎ (o ≡ object) }
    {
        self.all.give(tokens, &mut to.all, object, tickets, bytes);
    }

    /// Moves all that another wallet holds into this one, which has room for it. The other one is empty
    /// then.
    pub fn put_all(&mut self, tokens: &Tokens, from: &mut Wallet)
        requires of { IsOf tokens.now self.old × IsOf tokens.now from.old }
        requires room { HasRoomForAll self.old from.old }
        ensures of { IsOf tokens.now self.new }
        ensures places { self.new.places ≡ self.old.places }
        ensures left { (o : ℕ) → left_of self.new o ≡ left_of self.old o + left_of from.old o }
        ensures bytes { (o : ℕ) → bytes_of self.new o ≡ bytes_of self.old o + bytes_of from.old o }
        ensures empty { from.new ≡ empty_purse from.old.places }
        ensures full { (o : ℕ) → HasPlace self.new o → 0 < left_of self.new o + bytes_of self.new o }
    {
        self.all.put_all(tokens, &mut from.all);
    }

    /// Retires all tickets and bytes that it holds of the owner of a book into that book. What it holds of
    /// others stays.
    pub fn hand_back(&mut self, tokens: &Tokens, book: &mut Book)
        requires of { IsOf tokens.now self.old }
        requires book { book.old.table ≡ tokens.now }
        ensures of { IsOf tokens.now self.new }
        ensures others { (o : ℕ) → (o ≡ book.old.owner → ⊥) → left_of self.new o ≡ left_of self.old o }
        ensures none { left_of self.new book.old.owner ≡ 0 }
        ensures book { (book.new.table ≡ book.old.table) × (book.new.owner ≡ book.old.owner) }
        ensures tickets { out_of 0 book.new.out + left_of self.old book.old.owner ≡ out_of 0 book.old.out }
        ensures bytes { out_of 1 book.new.out + bytes_of self.old book.old.owner ≡ out_of 1 book.old.out }
    {
        self.all.hand_back(tokens, book);
    }
}
