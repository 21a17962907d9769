//! Tokens that books count, and the tickets and wallets that are made of them.
//!
//! - `Tokens` is one shared table. It has a `Book` for each owner, and a `Book` issues `Token`s.
//! - A `Token` is an amount of one name that counts in its owner's book. It can be cut in two,
//!   merged with its like, sent to another thread, and retired into the book. It can't be copied.
//! - An `Amount` is a token of which the owner and the name are known where it stands. A `Share` is such a token or none, and a
//!   `One` a token of the amount 1.
//! - A `Ticket` is the right to one entry of an object and to the bytes that the entry may log.
//! - A `Wallet` keeps the tickets of many objects, in places made beforehand.
//!
//! Promises: between any two steps of any threads, for each owner and name, the amounts of all tokens
//! sum to what the owner's book has out. So a token that is retired was out. Every call is exact, and
//! none but `Tokens::new` and `Wallet::new` can fail, for want of memory. A token that is dropped counts
//! as out for good.
#![tactic(auto)]

mod place;
mod places;
mod ticket;
mod tokens;
mod view;
mod wallet;

pub use ticket::Ticket;
pub use tokens::{Amount, Book, One, Share, Token, Tokens};
pub use wallet::Wallet;
