// What a wallet holds of one object.
ghost use Rattle.std.specs.Prelude.{◌≡◌, ℕ, ◌+◌, ◌<◌, ◌≤◌, ◌==◌, Some};
ghost use Rattle.token_book.specs.Account.{named_amount, out_of};
ghost use Rattle.token_book.specs.Ticket.{entry_right, bytes_rights};
ghost use Rattle.token_book.specs.Pocket.{IsPart, no_pocket, rights_of, with_pocket_in, with_token, without_rights, without_ticket};

use crate::ticket::Ticket;
use crate::tokens::{Amount, Book, Share, Token, Tokens};
use std::marker::Model;

/// The tickets and the bytes of one object. Contracts see its number, and them as a pocket.
// Where there are none, an amount of 0 stands, which may have the other's name.
#[derive(Drop)]
pub struct ObjectRights {
    object: u32,
    entries: Amount,
    bytes: Amount,
}

impl Model for ObjectRights {
    ghost use Rattle.std.specs.Prelude.{ℕ};
    ghost use Rattle.std.specs.Coded.{coded×, coded_ℕ};
    ghost use Rattle.token_book.specs.Pocket.{Pocket, pocket_code, IsPart};

    ghost Value = { ℕ × Pocket };

    ghost coded = { coded× coded_ℕ pocket_code };

    ghost view = { λ p. (p.object, record { table = p.entries.table; left = p.entries.amount; bytes = p.bytes.amount }) };

    ghost invariant = { λ p. IsPart p.entries.table p.object 0 p.entries × IsPart p.entries.table p.object 1 p.bytes };
}

// Adds an amount to one of its like. An amount of 0 is like any other of its owner.
fn add(tokens: &Tokens, kept: &mut Amount, more: Amount)
    requires alike { (owner : ℕ) × (name : ℕ) × IsPart tokens.now owner name kept.old × IsPart tokens.now owner name more }
    ensures sum { kept.new.amount ≡ kept.old.amount + more.amount }
    ensures like { (owner name : ℕ) → IsPart tokens.now owner name kept.old → IsPart tokens.now owner name more → IsPart tokens.now owner name kept.new }
{
    if kept.size() == 0 {
        *kept = more;
    } else if more.size() > 0 {
        tokens.merge_amount(kept, more);
    }
}

// Retires an amount into the book of its owner.
fn retire(tokens: &Tokens, book: &mut Book, held: Amount)
    requires book { book.old.table ≡ tokens.now }
    requires held { (held.table ≡ tokens.now) × (held.owner ≡ book.old.owner) }
    ensures book { (book.new.table ≡ book.old.table) × (book.new.owner ≡ book.old.owner) }
    ensures out { (name : ℕ) → out_of name book.new.out + named_amount name (Some held) ≡ out_of name book.old.out }
{
    tokens.retire_amount(book, held);
}

impl ObjectRights {
    /// The number of its object.
    pub fn object(&self) -> u32
        ensures { result ≡ self.now.0 }
    {
        self.object
    }

    /// How many tickets it has.
    pub fn left(&self) -> u64
        ensures { result ≡ self.now.1.left }
    {
        self.entries.size()
    }

    /// The amount of its bytes.
    pub fn bytes(&self) -> u64
        ensures { result ≡ self.now.1.bytes }
    {
        self.bytes.size()
    }

    /// Whether it has neither tickets nor bytes.
    pub fn is_empty(&self) -> bool
        ensures { result ≡ (self.now.1.left + self.now.1.bytes == 0) }
    {
        self.left() == 0 && self.bytes() == 0
    }

    /// The place of the token's owner, with this token alone.
    pub fn of(tokens: &Tokens, token: Token) -> ObjectRights
        requires { (token.table ≡ tokens.now) × (token.name < 2) }
        ensures { result ≡ (token.owner, with_token token (no_pocket token.table)) }
    {
        let object = token.owner();
        let name = token.name();
        let mut held = token.into_amount();
        let none = tokens.part_amount(&mut held, 0);
        if name == 0 {
            ObjectRights {
                object,
                entries: held,
                bytes: none,
            }
        } else {
            ObjectRights {
                object,
                entries: none,
                bytes: held,
            }
        }
    }

    /// Puts a token of its object in.
    pub fn add(&mut self, tokens: &Tokens, token: Token)
        requires table { (self.old.1.table ≡ tokens.now) × (token.table ≡ tokens.now) }
        requires token { (token.owner ≡ self.old.0) × (token.name < 2) }
        ensures { self.new ≡ (self.old.0, with_token token self.old.1) }
    {
        if token.name() == 0 {
            add(tokens, &mut self.entries, token.into_amount());
        } else {
            add(tokens, &mut self.bytes, token.into_amount());
        }
    }

    /// Puts in what another place has of the same object.
    pub fn take_in(&mut self, tokens: &Tokens, other: ObjectRights)
        requires table { (self.old.1.table ≡ tokens.now) × (other.1.table ≡ tokens.now) }
        requires object { other.0 ≡ self.old.0 }
        ensures { self.new ≡ (self.old.0, with_pocket_in self.old.1 other.1) }
    {
        let ObjectRights {
            object: _,
            entries,
            bytes,
        } = other;
        add(tokens, &mut self.entries, entries);
        add(tokens, &mut self.bytes, bytes);
    }

    /// Takes out a ticket for so many bytes.
    pub fn pull(&mut self, tokens: &Tokens, bytes: u64) -> Ticket
        requires table { self.old.1.table ≡ tokens.now }
        requires left { 0 < self.old.1.left }
        requires bytes { bytes ≤ self.old.1.bytes }
        ensures place { self.new ≡ (self.old.0, without_ticket bytes self.old.1) }
        ensures entry { result.entry ≡ entry_right tokens.now self.old.0 }
        ensures bytes { result.bytes ≡ bytes_rights tokens.now self.old.0 bytes }
    {
        let entry = tokens.part_one(&mut self.entries, 0);
        let bytes = Share::of(tokens.part_amount(&mut self.bytes, bytes));
        Ticket { entry, bytes }
    }

    /// Takes out so many tickets and so many bytes, as another place of the object.
    #[inline(always)]
    pub fn pull_rights(&mut self, tokens: &Tokens, tickets: u64, bytes: u64) -> ObjectRights
        requires table { self.old.1.table ≡ tokens.now }
        requires left { tickets ≤ self.old.1.left }
        requires bytes { bytes ≤ self.old.1.bytes }
        ensures place { self.new ≡ (self.old.0, without_rights tickets bytes self.old.1) }
        ensures rights { result ≡ (self.old.0, rights_of tokens.now tickets bytes) }
    {
        ObjectRights {
            object: self.object,
            entries: tokens.part_amount(&mut self.entries, tickets),
            bytes: tokens.part_amount(&mut self.bytes, bytes),
        }
    }

    /// Retires its tickets and its bytes into the book of its object.
    pub fn retire(self, tokens: &Tokens, book: &mut Book)
        requires table { self.1.table ≡ tokens.now }
        requires book { (book.old.table ≡ tokens.now) × (book.old.owner ≡ self.0) }
        ensures book { (book.new.table ≡ book.old.table) × (book.new.owner ≡ book.old.owner) }
        ensures tickets { out_of 0 book.new.out + self.1.left ≡ out_of 0 book.old.out }
        ensures bytes { out_of 1 book.new.out + self.1.bytes ≡ out_of 1 book.old.out }
    {
        let ObjectRights {
            object: _,
            entries,
            bytes,
        } = self;
        retire(tokens, book, entries);
        retire(tokens, book, bytes);
    }
}
