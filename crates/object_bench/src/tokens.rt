// Tokens that threads hand to each other.
ghost use Rattle.std.specs.Prelude.{◌≡◌, ◌+◌, ◌-◌, ◌/◌};
ghost use Rattle.token_book.specs.Account.{out_of, with_amount};

use crate::bench::two_books;
use std::thread::{Threads, join};
use token_book::{Book, Token, Tokens};

// Cuts a token in half.
fn halves(tokens: &Tokens, mut token: Token) -> (Token, Token)
    requires { token.table ≡ tokens.now }
    ensures kept { result.0 ≡ with_amount token (token.amount - token.amount / 2) }
    ensures half { result.1 ≡ with_amount token (token.amount / 2) }
{
    let amount = token.amount() / 2;
    let half = tokens.part(&mut token, amount);
    (token, half)
}

// Makes one token of two.
fn whole(tokens: &Tokens, mut token: Token, other: Token) -> Token
    requires table { (token.table ≡ tokens.now) × (other.table ≡ tokens.now) }
    requires alike { (other.owner ≡ token.owner) × (other.name ≡ token.name) }
    ensures { result ≡ with_amount token (token.amount + other.amount) }
{
    tokens.merge(&mut token, other);
    token
}

// Every value may be moved to another thread.
fn may_move<T: Send>(_value: &T) {}

// The tokens may be shared by threads.
fn may_be_shared<T: Sync>(_value: &T) {}

// Two threads cut a token each, hand each other a half, and make a token of theirs and that half.
fn exchange<R: Threads + Sync>(rt: &R, tokens: &Tokens, one: Token, two: Token) -> (Token, Token)
    requires table { (one.table ≡ tokens.now) × (two.table ≡ tokens.now) }
    requires alike { (two.owner ≡ one.owner) × (two.name ≡ one.name) }
    ensures one { result.0 ≡ with_amount one (one.amount - one.amount / 2 + two.amount / 2) }
    ensures two { result.1 ≡ with_amount two (two.amount - two.amount / 2 + one.amount / 2) }
{
    let (first, second) = join(rt, || halves(tokens, one), || halves(tokens, two));
    let (kept, given) = first;
    let (other, taken) = second;
    join(
        rt,
        || whole(tokens, kept, taken),
        || whole(tokens, other, given),
    )
}

// Retires all that is out of a name.
fn retire_all(tokens: &Tokens, book: &mut Book, one: Token, two: Token)
    requires book { book.old.table ≡ tokens.now }
    requires one { (one.table ≡ tokens.now) × (one.owner ≡ book.old.owner) }
    requires two { (two.table ≡ tokens.now) × (two.owner ≡ book.old.owner) × (two.name ≡ one.name) }
    requires all { one.amount + two.amount ≡ out_of one.name book.old.out }
    ensures { out_of one.name book.new.out ≡ 0 }
{
    tokens.retire(book, one);
    tokens.retire(book, two);
}

#[test]
fn threads_hand_tokens_to_each_other(rt: HostRuntime) {
    let Ok((tokens, mut book, _other)) = two_books(rt.alloc()) else {
        panic!(rt; "memory");
    };
    let one = tokens.issue(&mut book, 3, 10);
    assert!(rt; book.owner() == 0 && one.name() == 3);
    may_be_shared(&tokens);
    may_move(&book);
    may_move(&one);
    let two = tokens.issue(&mut book, 3, 7);
    let (one, two) = exchange(&rt, &tokens, one, two);
    assert!(rt; one.amount() == 8 && two.amount() == 9);
    retire_all(&tokens, &mut book, one, two);
}
