// Tickets that move between the wallet of a port and that of a payload.
ghost use Rattle.std.specs.Prelude.{◌≡◌, ◌⊎◌, ℕ, ◌<◌, ◌≤◌};
ghost use Rattle.token_book.specs.Account.{amount_of};
ghost use Rattle.token_book.specs.Purse.{HasPlace, HasRoom, IsOf, bytes_of, left_of};
ghost use Rattle.token_book.specs.Ticket.{IsTicket};
ghost use Rattle.port_moves.specs.Wallets.{Gets, Gives};

use token_book::{Ticket, Tokens, Wallet};

// Moves one ticket of an object, for so many bytes.
pub(crate) fn hand_one(
    tickets: &Tokens,
    from: &mut Wallet,
    to: &mut Wallet,
    object: u32,
    bytes: u64,
)
    requires tables { IsOf tickets.now from.old × IsOf tickets.now to.old }
    requires left { 0 < left_of from.old object }
    requires bytes { bytes ≤ bytes_of from.old object }
    requires room { HasRoom to.old object }
    ensures from { Gives tickets.now object 1 bytes from.old from.new }
    ensures to { Gets tickets.now object 1 bytes to.old to.new }
    ensures from_in { (o : ℕ) → HasPlace from.new o → HasPlace from.old o }
    ensures to_in { (o : ℕ) → HasPlace to.new o → HasPlace to.old o ⊎ (o ≡ object) }
{
    from.give(tickets, to, object, 1, bytes);
}

/// Moves so many tickets of an object at once, which are for no bytes.
pub(crate) fn hand_over(
    tickets: &Tokens,
    from: &mut Wallet,
    to: &mut Wallet,
    object: u32,
    count: u64,
)
    requires tables { IsOf tickets.now from.old × IsOf tickets.now to.old }
    requires left { count ≤ left_of from.old object }
    requires room { HasRoom to.old object }
    ensures from { Gives tickets.now object count 0 from.old from.new }
    ensures to { Gets tickets.now object count 0 to.old to.new }
    ensures from_in { (o : ℕ) → HasPlace from.new o → HasPlace from.old o }
    ensures to_in { (o : ℕ) → HasPlace to.new o → HasPlace to.old o ⊎ (o ≡ object) }
{
    if count == 0 {
        return;
    }
    from.give(tickets, to, object, count, 0);
}

/// Puts a ticket of this object that wasn't spent back.
#[tactic(auto, using(crate::proofs::WalletLemmas::put_once))]
pub(crate) fn put_back(tickets: &Tokens, wallet: &mut Wallet, object: u32, ticket: Ticket)
    requires of { IsOf tickets.now wallet.old }
    requires ticket { IsTicket tickets.now object ticket × HasRoom wallet.old object × (amount_of ticket.bytes ≡ 0) }
    ensures back { Gets tickets.now object 1 0 wallet.old wallet.new }
    ensures within { (o : ℕ) → HasPlace wallet.new o → HasPlace wallet.old o ⊎ (o ≡ object) }
{
    let Ticket { entry, bytes: _ } = ticket;
    wallet.put_one(tickets, object, entry);
}
