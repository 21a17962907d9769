// The wallets of the initiators, and the tickets of the objects.
ghost use Rattle.std.specs.Prelude.{◌≡◌, ℕ, ◌+◌, ◌<◌, ◌≤◌, ◌^◌, length, sum_by, IfOk};
ghost use Rattle.std.specs.List.{range_with_len};
ghost use Rattle.token_book.specs.Account.{fresh, out_of};
ghost use Rattle.token_book.specs.Purse.{HasPlace, IsOf};
ghost use Rattle.route_plan.specs.Valid.{IsObject};
ghost use Rattle.cargo_model.specs.Known.{objects_of};
ghost use Rattle.plat_net.specs.Objects.{bytes_at, HasObject};
ghost use Rattle.plat_build.specs.Tickets.{AreStocked, GotRights, IsOut};
ghost use Rattle.plat_build.specs.Unused.{added_by_all};

use route_plan::Plan;
use std::alloc::Global;
use tlm_types::{Memory, ObjectNo};
use token_book::{Book, Tokens, Wallet};

/// An empty wallet for each initiator, with so many places. Its only error is want of memory.
pub(crate) fn empty_wallets(
    alloc: Global,
    tickets: &Tokens,
    plan: &Plan,
    places: u32,
) -> Result<Vec<Wallet>, Memory>
    requires { places ≡ length (objects_of plan.now.platform) }
    ensures { IfOk result (λ wallets. AreStocked tickets.now plan.now 0 wallets.items) }
{
    let _ = tickets;
    let mut wallets = Vec::new(alloc);
    for _initiator in 0..plan.platform().initiators.as_slice().len() {
        wallets.push(Wallet::new(alloc, places)?)?;
    }
    Ok(wallets)
}

// Issues tickets of the book's owner for so many bytes, and puts them into a wallet that has none of
// this owner and none of later ones.
fn stock(tickets: &Tokens, book: &mut Book, wallet: &mut Wallet, entries: u64, bytes: u64)
    requires tables { (book.old.table ≡ tickets.now) × IsOf tickets.now wallet.old }
    requires entries { out_of 0 book.old.out + entries < 2 ^ 64 }
    requires bytes { out_of 1 book.old.out + bytes < 2 ^ 64 }
    requires few { (o : ℕ) → HasPlace wallet.old o → o < book.old.owner }
    requires room { book.old.owner < wallet.old.places }
    ensures book { IsOut entries bytes book.old book.new }
    ensures wallet { GotRights tickets.now book.old.owner entries bytes wallet.old wallet.new }
{
    let rights = tickets.issue(book, 0, entries);
    wallet.put(tickets, rights);
    let rights = tickets.issue(book, 1, bytes);
    wallet.put(tickets, rights);
}

// The bytes that the script of an initiator may log at an object: no other than a memory logs any.
fn bytes_at(plan: &Plan, initiator: u32, object: ObjectNo) -> u64
    requires initiator { initiator < length plan.now.platform.initiators }
    requires object { IsObject plan.now.platform object }
    ensures bytes { result ≡ bytes_at plan.now initiator object }
    ensures few { result ≤ 67108864 }
{
    match object {
        ObjectNo::Memory(memory) => plan.logged_by(initiator, memory),
        ObjectNo::Hop(_) | ObjectNo::Pool(_) => 0,
    }
}

/// Issues the tickets of an object, which is that of the book, to the wallets of all initiators: to each
/// as many as the plan counts for it, for as many bytes.
pub(crate) fn issue_all(
    tickets: &Tokens,
    plan: &Plan,
    object: ObjectNo,
    book: &mut Book,
    wallets: &mut [Wallet],
)
    requires object { HasObject plan.now.platform book.old.owner object }
    requires book { book.old ≡ fresh tickets.now book.old.owner }
    requires wallets { AreStocked tickets.now plan.now book.old.owner wallets.old }
    ensures table { (book.new.table ≡ tickets.now) × (book.new.owner ≡ book.old.owner) }
    ensures entries { out_of 0 book.new.out ≡ added_by_all plan.now object }
    ensures bytes { out_of 1 book.new.out
        ≡ sum_by (λ n. bytes_at plan.now n object) (range_with_len 0 (length plan.now.platform.initiators)) }
    ensures wallets { AreStocked tickets.now plan.now (book.old.owner + 1) wallets.new }
{
    for index in 0..plan.platform().initiators.as_slice().len() {
        let initiator = index as u32;
        let entries = plan.share(initiator, object);
        let bytes = bytes_at(plan, initiator, object);
        stock(tickets, book, &mut wallets[index], entries, bytes);
    }
}
