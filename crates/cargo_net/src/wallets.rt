// The wallet of a payload.
ghost use Rattle.std.specs.Prelude.{ℕ, ◌<◌, IfSome};
ghost use Rattle.token_book.specs.Purse.{IsOf, left_of};
ghost use Rattle.cargo_net.specs.Wallets.{GoesBack, IsPutBack, IsTicketAt, PullsAt};

use cargo_model::Cargo;
use token_book::{Ticket, Tokens, Wallet};

// Puts a ticket back into the wallet of a payload.
pub(crate) fn put_back(tickets: &Tokens, number: u32, ticket: Option<Ticket>, cargo: Cargo) -> Cargo
    requires of { IsOf tickets.now cargo.baton.wallet }
    requires ticket { GoesBack tickets.now number cargo.baton.wallet ticket }
    ensures { IsPutBack tickets.now number cargo result }
{
    let Some(ticket) = ticket else { unreachable!() };
    let Ticket { entry, bytes: _ } = ticket;
    let mut cargo = cargo;
    cargo.baton.wallet.put_one(tickets, number, entry);
    cargo
}

// Pulls a ticket of this object, if there is one.
pub(crate) fn pull_at(tickets: &Tokens, wallet: &mut Wallet, object: Option<u32>) -> Option<Ticket>
    requires of { IsOf tickets.now wallet.old }
    requires left { IfSome object (λ (n : ℕ). 0 < left_of wallet.old n) }
    ensures pulls { PullsAt tickets.now object wallet.old wallet.new }
    ensures ticket { IsTicketAt tickets.now object result }
{
    match object {
        Some(number) => Some(wallet.pull(tickets, number, 0)),
        None => None,
    }
}
