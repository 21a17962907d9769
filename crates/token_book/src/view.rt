// What a seat of the table is, the rule of all seats, and what each step does to a seat.
use atomic_table::{Join, Play, Split, TableRule};
use std::collections::LinkedList;
use std::marker::{Brand, PhantomData};

/// A token: an amount of one name of an owner.
pub struct Hand {
    pub owner: u32,
    pub name: u32,
    pub amount: u64,
}

/// An owner's book: what is out of each name, the latest first, and a token that was taken in and is
/// still counted. The book of owner 0 also counts the books.
pub struct Page {
    pub owner: u32,
    pub out: LinkedList<(u32, u64)>,
    pub taking: Option<(u32, u64)>,
    pub made: Option<u32>,
}

/// What a seat is. No value of it is made.
pub enum View {
    Book(Page),
    Token(Hand),
    Spent,
}

/// The rule of the table.
pub struct Counted;

impl TableRule<u8, View, ()> for Counted {
    ghost use Rattle.token_book.specs.Rule.{IsCounted, first_book};

    ghost holds = { λ _ s. IsCounted s };

    ghost first = { λ _. first_book };
}

/// Names what is issued.
pub trait Names {
    ghost use Rattle.std.specs.Prelude.{ℕ};

    ghost name: { ℕ };
}

impl Names for Brand {
    ghost name = { 0 };
}

/// Says how much is issued, or taken off.
pub trait Amounts {
    ghost use Rattle.std.specs.Prelude.{ℕ};

    ghost amount: { ℕ };
}

impl Amounts for Brand {
    ghost amount = { 0 };
}

/// The first book makes the next owner's.
pub struct Makes;

impl Split<View> for Makes {
    ghost use Rattle.token_book.specs.Rule.{one_more, next_book};

    ghost left = { one_more };

    ghost right = { next_book };
}

/// A book issues a token.
pub struct Issues<N, A> {
    of: PhantomData<(N, A)>,
}

impl<N: Names, A: Amounts> Split<View> for Issues<N, A> {
    ghost use Rattle.token_book.specs.Rule.{more_out, new_token};

    ghost left = { more_out N.name A.amount };

    ghost right = { new_token N.name A.amount };
}

/// A part is taken off a token.
pub struct Parts<A> {
    of: PhantomData<A>,
}

impl<A: Amounts> Split<View> for Parts<A> {
    ghost use Rattle.token_book.specs.Rule.{less_by, part_of};

    ghost left = { less_by A.amount };

    ghost right = { part_of A.amount };
}

/// Two tokens become one.
pub struct Merges;

impl Join<View> for Merges {
    ghost use Rattle.token_book.specs.Rule.{merged};
    ghost use Rattle.token_book.specs.declared.view.View.TheVariants.{Spent};

    ghost both = { merged };

    ghost spent = { Spent };
}

/// A book takes a token in.
pub struct TakesIn;

impl Join<View> for TakesIn {
    ghost use Rattle.token_book.specs.Rule.{taking_in};
    ghost use Rattle.token_book.specs.declared.view.View.TheVariants.{Spent};

    ghost both = { taking_in };

    ghost spent = { Spent };
}

/// A book strikes off the token that it took in.
pub struct Settles;

impl Play<u8, View> for Settles {
    ghost use Rattle.token_book.specs.Rule.{Settled};

    ghost then = { Settled };
}

/// A token learns that its amount fits.
pub struct Weighs;

impl Play<u8, View> for Weighs {
    ghost use Rattle.token_book.specs.Rule.{Weighed};

    ghost then = { Weighed };
}
