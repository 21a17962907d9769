// The tokens, their books, and the steps on them.
ghost use Rattle.std.specs.Prelude.{◌≡◌, ℕ, ◌+◌, ◌-◌, ◌<◌, ◌≤◌, ◌^◌, [], length, slice_get, Some, codes, IfOk};
ghost use Rattle.std.specs.Option.{ForSome};
ghost use Rattle.token_book.specs.Account.{Account, out_of, fresh, issued, named_amount, retired, share_of, slip, with_amount, AreFresh};
ghost use Rattle.token_book.specs.Rule.{a_book, a_token};

use crate::view::{
    Amounts, Counted, Issues, Makes, Merges, Names, Parts, Settles, TakesIn, View, Weighs,
};
use atomic_table::{Seat, Table};
use std::alloc::{AllocError, Global};
use std::marker::{Brand, Model};
use tlm_types::Memory;

/// What all books and tokens of one making share. Contracts see which table it is.
pub struct Tokens {
    table: Table<u8, View, (), Counted, Global>,
}

impl Model for Tokens {
    ghost use Rattle.std.specs.Prelude.{◌≡◌};
    ghost use Rattle.atomic_table.specs.Seated.{TableId, table_id_coded};

    ghost Value = { TableId };

    ghost coded = { table_id_coded };

    ghost view = { λ t. t.table.shared.table_id };

    ghost invariant = { λ t. t.table.shared.table_id.words ≡ 1 };
}

/// The book of an owner. Contracts see its table, its owner, and what is out of each name.
pub struct Book {
    owner: u32,
    seat: Seat<u8, View>,
}

impl Model for Book {
    ghost use Rattle.std.specs.Prelude.{◌≡◌, []};
    ghost use Rattle.token_book.specs.Account.{Account, account_code};
    ghost use Rattle.token_book.specs.Rule.{a_book, out_in, made_in};

    ghost Value = { Account };

    ghost coded = { account_code };

    ghost view = { λ b. record { table = b.seat.table_id; owner = b.owner; out = out_in b.seat.me.0 } };

    ghost invariant = { λ b. b.seat.me ≡ (a_book b.owner (out_in b.seat.me.0) (made_in b.seat.me.0), []) };
}

/// A token of which no more than its amount is kept, for where it is known whose it is and what its name is. Contracts see it
/// as they see a token.
pub struct Amount {
    amount: u64,
    seat: Seat<u8, View>,
}

impl Model for Amount {
    ghost use Rattle.std.specs.Prelude.{◌≡◌, []};
    ghost use Rattle.token_book.specs.Account.{Slip, slip_code};
    ghost use Rattle.token_book.specs.Rule.{a_token, name_in, owner_in};

    ghost Value = { Slip };

    ghost coded = { slip_code };

    ghost view = { λ t. record { table = t.seat.table_id; owner = owner_in t.seat.me.0; name = name_in t.seat.me.0; amount = t.amount } };

    ghost invariant = { λ t. t.seat.me ≡ (a_token (owner_in t.seat.me.0) (name_in t.seat.me.0) t.amount, []) };
}

/// An amount, or none where it is 0. Contracts see it as a token, if there is one.
pub struct Share {
    held: Amount,
}

impl Model for Share {
    ghost use Rattle.std.specs.Prelude.{Option};
    ghost use Rattle.std.specs.Coded.{coded_option};
    ghost use Rattle.token_book.specs.Account.{Slip, share_of, slip_code};

    ghost Value = { Option Slip };

    ghost coded = { coded_option slip_code };

    ghost view = { λ s. share_of s.held };
}

/// An amount of one name that is out of its owner's book. Contracts see its table, its owner, its
/// name and its amount.
pub struct Token {
    owner: u32,
    name: u32,
    held: Amount,
}

impl Model for Token {
    ghost use Rattle.std.specs.Prelude.{◌≡◌};
    ghost use Rattle.token_book.specs.Account.{Slip, slip_code};

    ghost Value = { Slip };

    ghost coded = { slip_code };

    ghost view = { λ t. t.held };

    ghost invariant = { λ t. (t.held.owner ≡ t.owner) × (t.held.name ≡ t.name) };
}

/// A token of the amount 1, of which no more than its name is kept, so that what carries it is small. Contracts see it as
/// they see a token.
pub struct One {
    name: u32,
    seat: Seat<u8, View>,
}

impl Model for One {
    ghost use Rattle.std.specs.Prelude.{◌≡◌, []};
    ghost use Rattle.token_book.specs.Account.{Slip, slip_code};
    ghost use Rattle.token_book.specs.Rule.{a_token, owner_in};

    ghost Value = { Slip };

    ghost coded = { slip_code };

    ghost view = { λ t. record { table = t.seat.table_id; owner = owner_in t.seat.me.0; name = t.name; amount = 1 } };

    ghost invariant = { λ t. t.seat.me ≡ (a_token (owner_in t.seat.me.0) t.name 1, []) };
}

// These are written out, so that crates above call them and needn't prove again how each part is let go of.
impl Drop for Tokens {
    fn drop(self) {
        let Tokens { table: _table } = self;
    }
}

impl Drop for Book {
    fn drop(self) {
        let Book {
            owner: _,
            seat: _seat,
        } = self;
    }
}

impl Drop for Amount {
    fn drop(self) {
        let Amount {
            amount: _,
            seat: _seat,
        } = self;
    }
}

impl Drop for Share {
    fn drop(self) {
        let Share { held: _held } = self;
    }
}

impl Drop for Token {
    fn drop(self) {
        let Token {
            owner: _,
            name: _,
            held: _held,
        } = self;
    }
}

impl Drop for One {
    fn drop(self) {
        let One {
            name: _,
            seat: _seat,
        } = self;
    }
}

impl One {
    /// Its name.
    pub fn name(&self) -> u32
        ensures { result ≡ self.now.name }
    {
        self.name
    }

    // What is of this name, with no more than its name.
    fn of(name: u32, held: Amount) -> One
        requires name { name ≡ held.name }
        requires one { held.amount ≡ 1 }
        ensures { result ≡ held }
    {
        One {
            name,
            seat: held.into_seat(),
        }
    }

    // It as an amount.
    fn into_amount(self) -> Amount
        ensures { result ≡ self }
    {
        let One { name: _, seat } = self;
        Amount { amount: 1, seat }
    }

    /// The token, which is of this owner.
    pub fn into_token(self, owner: u32) -> Token
        requires { owner ≡ self.owner }
        ensures { result ≡ self }
    {
        let name = self.name();
        Token {
            owner,
            name,
            held: self.into_amount(),
        }
    }
}

impl Amount {
    /// How much it is.
    pub fn size(&self) -> u64
        ensures { result ≡ self.now.amount }
    {
        self.amount
    }

    // The seat of the table.
    fn into_seat(self) -> Seat<u8, View>
        ensures { (result.table_id ≡ self.table) × (result.me ≡ (a_token self.owner self.name self.amount, [])) }
    {
        let Amount { amount: _, seat } = self;
        seat
    }
}

impl Share {
    /// What there is of an amount.
    pub fn of(held: Amount) -> Share
        ensures { result ≡ share_of held }
    {
        Share { held }
    }

    // The amount, which is 0 where there is none.
    fn into_amount(self) -> Amount
        ensures { share_of result ≡ self }
    {
        let Share { held } = self;
        held
    }
}

impl Book {
    /// The number of its owner.
    pub fn owner(&self) -> u32
        ensures { result ≡ self.now.owner }
    {
        self.owner
    }
}

impl Token {
    /// The number of the owner in whose book it counts.
    pub fn owner(&self) -> u32
        ensures { result ≡ self.now.owner }
    {
        self.owner
    }

    /// Its name.
    pub fn name(&self) -> u32
        ensures { result ≡ self.now.name }
    {
        self.name
    }

    /// Its amount.
    pub fn amount(&self) -> u64
        ensures { result ≡ self.now.amount }
    {
        self.held.size()
    }

    /// It as an amount.
    pub fn into_amount(self) -> Amount
        ensures { result ≡ self }
    {
        let Token {
            owner: _,
            name: _,
            held,
        } = self;
        held
    }
}

impl Tokens {
    /// A book for each owner, in order from owner 0 on, with nothing out. Its only error is want of
    /// memory.
    pub fn new(alloc: Global, owners: u32) -> Result<(Tokens, Vec<Book>), Memory>
        requires { 0 < owners }
        ensures count { IfOk result (λ r. length r.1.items ≡ owners) }
        ensures fresh { IfOk result (λ r. AreFresh r.0 r.1.items) }
    {
        let (table, mut seat) = Table::of_words(alloc, &[0], &())?;
        let tokens = Tokens { table };
        let mut books = tokens.make_all(alloc, &mut seat, owners)?;
        books.insert(0, Book { owner: 0, seat })?;
        Ok((tokens, books))
    }

    // The books of all owners but the first.
    fn make_all(
        &self,
        alloc: Global,
        first: &mut Seat<u8, View>,
        owners: u32,
    ) -> Result<Vec<Book>, AllocError>
        requires owners { 0 < owners }
        requires first { (first.old.table_id ≡ self.now) × (first.old.me ≡ (a_book 0 [] (Some 1), [])) }
        ensures count { IfOk result (λ books. length books.items + 1 ≡ owners) }
        ensures first { IfOk result (λ _. (first.new.table_id ≡ self.now) × (first.new.me ≡ (a_book 0 [] (Some owners), []))) }
        ensures books { IfOk result (λ books. (o : ℕ) (b : Account) → slice_get books.items o ≡ Some b → b ≡ fresh self.now (o + 1)) }
    {
        let mut books = Vec::new(alloc);
        for owner in 1..owners {
            books.push(self.make(first, owner))?;
        }
        Ok(books)
    }

    // The book of the next owner.
    fn make(&self, first: &mut Seat<u8, View>, owner: u32) -> Book
        requires table { first.old.table_id ≡ self.now }
        requires first { first.old.me ≡ (a_book 0 [] (Some owner), []) }
        ensures first { (first.new.table_id ≡ self.now) × (first.new.me ≡ (a_book 0 [] (Some (owner + 1)), [])) }
        ensures book { result ≡ fresh self.now owner }
    {
        let seat = self.table.shared.split_seat::<Makes>(first);
        Book { owner, seat }
    }

    /// A token of this name and amount, which is then out of the book. No more than 2^64 - 1 of a
    /// name may be out.
    pub fn issue(&self, book: &mut Book, name: u32, amount: u64) -> Token
        requires book { book.old.table ≡ self.now }
        requires fits { out_of name book.old.out + amount < 2 ^ 64 }
        ensures book { book.new ≡ issued book.old name amount }
        ensures token { result ≡ slip book.old name amount }
    {
        self.issue_as::<Brand, Brand>(book, name, amount)
    }

    // The call picks the name and the amount.
    fn issue_as<N: Names, A: Amounts>(&self, book: &mut Book, name: u32, amount: u64) -> Token
        requires book { book.old.table ≡ self.now }
        requires fits { out_of name book.old.out + amount < 2 ^ 64 }
        requires picked { (N.name ≡ name) × (A.amount ≡ amount) }
        ensures book { book.new ≡ issued book.old name amount }
        ensures token { result ≡ slip book.old name amount }
    {
        let owner = book.owner;
        let seat = self.table.shared.split_seat::<Issues<N, A>>(&mut book.seat);
        Token {
            owner,
            name,
            held: Amount { amount, seat },
        }
    }

    /// Takes the token back. Its amount was out of its owner's book, and is so no more.
    pub fn retire(&self, book: &mut Book, token: Token)
        requires book { book.old.table ≡ self.now }
        requires token { (token.table ≡ self.now) × (token.owner ≡ book.old.owner) }
        ensures out { token.amount ≤ out_of token.name book.old.out }
        ensures book { book.new ≡ retired book.old token }
    {
        self.retire_amount(book, token.into_amount());
    }

    /// Takes an amount back, as `retire` does.
    pub fn retire_amount(&self, book: &mut Book, held: Amount)
        requires book { book.old.table ≡ self.now }
        requires held { (held.table ≡ self.now) × (held.owner ≡ book.old.owner) }
        ensures out { held.amount ≤ out_of held.name book.old.out }
        ensures book { book.new ≡ retired book.old held }
    {
        let seat = held.into_seat();
        self.table.shared.join_seat::<TakesIn>(&mut book.seat, seat);
        self.table.shared.load::<Settles>(&mut book.seat, 0);
    }

    /// A token of this name and of the amount 1, as `issue` makes it.
    pub fn issue_one(&self, book: &mut Book, name: u32) -> One
        requires book { book.old.table ≡ self.now }
        requires fits { out_of name book.old.out + 1 < 2 ^ 64 }
        ensures book { book.new ≡ issued book.old name 1 }
        ensures token { result ≡ slip book.old name 1 }
    {
        One::of(name, self.issue(book, name, 1).into_amount())
    }

    /// Takes a token of the amount 1 back, as `retire` does.
    pub fn retire_one(&self, book: &mut Book, token: One)
        requires book { book.old.table ≡ self.now }
        requires token { (token.table ≡ self.now) × (token.owner ≡ book.old.owner) }
        ensures out { token.amount ≤ out_of token.name book.old.out }
        ensures book { book.new ≡ retired book.old token }
    {
        self.retire_amount(book, token.into_amount());
    }

    /// Takes back what there is of a share, as `retire` does.
    pub fn retire_share(&self, book: &mut Book, share: Share)
        requires book { book.old.table ≡ self.now }
        requires share { ForSome share (λ t. (t.table ≡ self.now) × (t.owner ≡ book.old.owner)) }
        ensures book { (book.new.table ≡ book.old.table) × (book.new.owner ≡ book.old.owner) }
        ensures out { (name : ℕ) → out_of name book.new.out + named_amount name share ≡ out_of name book.old.out }
    {
        let held = share.into_amount();
        if held.size() > 0 {
            self.retire_amount(book, held);
        }
    }

    /// Takes this amount off the token, and answers a token of it.
    pub fn part(&self, token: &mut Token, amount: u64) -> Token
        requires token { token.old.table ≡ self.now }
        requires enough { amount ≤ token.old.amount }
        ensures left { token.new ≡ with_amount token.old (token.old.amount - amount) }
        ensures part { result ≡ with_amount token.old amount }
    {
        let owner = token.owner;
        let name = token.name;
        let held = self.part_amount(&mut token.held, amount);
        Token { owner, name, held }
    }

    /// Takes this much off, and answers it.
    pub fn part_amount(&self, held: &mut Amount, amount: u64) -> Amount
        requires held { held.old.table ≡ self.now }
        requires enough { amount ≤ held.old.amount }
        ensures left { held.new ≡ with_amount held.old (held.old.amount - amount) }
        ensures part { result ≡ with_amount held.old amount }
    {
        self.part_as::<Brand>(held, amount)
    }

    // The call picks the amount.
    fn part_as<A: Amounts>(&self, held: &mut Amount, amount: u64) -> Amount
        requires held { held.old.table ≡ self.now }
        requires enough { amount ≤ held.old.amount }
        requires picked { A.amount ≡ amount }
        ensures left { held.new ≡ with_amount held.old (held.old.amount - amount) }
        ensures part { result ≡ with_amount held.old amount }
    {
        let seat = self.table.shared.split_seat::<Parts<A>>(&mut held.seat);
        held.amount -= amount;
        Amount { amount, seat }
    }

    /// Takes 1 off what is of this name, and answers it.
    pub fn part_one(&self, held: &mut Amount, name: u32) -> One
        requires held { held.old.table ≡ self.now }
        requires name { name ≡ held.old.name }
        requires enough { 0 < held.old.amount }
        ensures left { held.new ≡ with_amount held.old (held.old.amount - 1) }
        ensures part { result ≡ with_amount held.old 1 }
    {
        One::of(name, self.part_amount(held, 1))
    }

    /// Adds the amount of another token of the same owner and name. The sum fits, since both are
    /// out of one book, and no book has more of a name out than a token can have.
    pub fn merge(&self, token: &mut Token, other: Token)
        requires same { (token.old.table ≡ self.now) × (other.table ≡ self.now) }
        requires alike { (other.owner ≡ token.old.owner) × (other.name ≡ token.old.name) }
        ensures fits { token.old.amount + other.amount < 2 ^ 64 }
        ensures sum { token.new ≡ with_amount token.old (token.old.amount + other.amount) }
    {
        self.merge_amount(&mut token.held, other.into_amount());
    }

    /// Adds another amount of the same owner and name, as `merge` does.
    pub fn merge_amount(&self, held: &mut Amount, other: Amount)
        requires same { (held.old.table ≡ self.now) × (other.table ≡ self.now) }
        requires alike { (other.owner ≡ held.old.owner) × (other.name ≡ held.old.name) }
        ensures fits { held.old.amount + other.amount < 2 ^ 64 }
        ensures sum { held.new ≡ with_amount held.old (held.old.amount + other.amount) }
    {
        let amount = other.size();
        let seat = other.into_seat();
        self.table.shared.join_seat::<Merges>(&mut held.seat, seat);
        self.table.shared.load::<Weighs>(&mut held.seat, 0);
        held.amount += amount;
    }
}
