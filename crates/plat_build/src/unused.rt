// The end of a history of whose net nothing was handed out.
ghost use Rattle.std.specs.Prelude.{◌≡◌, ◌+◌, [], length, IfOk, OnOk};
ghost use Rattle.tlm_types.specs.declared.words.ObjectNo.{ObjectNo as Object};
ghost use Rattle.token_book.specs.Account.{out_of};
ghost use Rattle.plat_build.specs.Kept.{all_waiting};
ghost use Rattle.plat_net.specs.Net.{AreHops, AreMemories, ArePools};
ghost use Rattle.plat_net.specs.Objects.{frame_of, HasObject};
ghost use Rattle.plat_build.specs.Unused.{added_by_all, AddUp, AreNumberedFrom, AreUnused, HaveTicketsFrom, IsThere, IsUnused};

use crate::building::Built;
use one_history::{Closed, Sealed};
use plat_net::{NetParts, PlatSeat, SharedHop, SharedMemory, SharedPool, Sharing, TlmLaw};
use route_plan::Plan;
use shared_object::{Keeper, Locked, Naming, Object, Shared, World};
use std::alloc::{AllocError, Global};
use std::sync::Wait;
use tlm_types::{Content, Memory};
use token_book::{Book, Tokens, Wallet};

// Retires the tickets of the book's owner that the wallets of all initiators have.
fn retire_from_all<N: Naming<Plan, TlmLaw>>(
    tickets: &Tokens,
    book: &mut Book,
    wallets: &mut [Wallet],
)
    requires tickets { tickets.now ≡ N.tokens }
    requires book { book.old.table ≡ N.tokens }
    requires wallets { HaveTicketsFrom N.tokens N.frame.world book.old.owner wallets.old }
    ensures out { (object : Object) → HasObject N.frame.world.platform book.old.owner object →
        out_of 0 book.new.out + added_by_all N.frame.world object ≡ out_of 0 book.old.out }
    ensures wallets { HaveTicketsFrom N.tokens N.frame.world (book.old.owner + 1) wallets.new }
{
    for wallet in wallets.iter_mut() {
        wallet.hand_back(tickets, book);
    }
}

// The seat of an object whose tickets are all in the wallets. As many are retired as entries are planned,
// so that its log has none.
fn unused_seat<
    O: Object + Drop,
    N: Naming<Plan, TlmLaw>,
    L: Keeper<Locked<O, Plan, TlmLaw, N>>,
    R: Wait,
>(
    rt: &R,
    tickets: &Tokens,
    object: Shared<O, Plan, TlmLaw, N, L>,
    wallets: &mut [Wallet],
) -> PlatSeat
where
    TlmLaw: World<Plan, O>,
    requires tickets { tickets.now ≡ N.tokens }
    requires there { IsThere N.frame.world.platform object.number }
    requires planned { AddUp N.frame }
    requires wallets { HaveTicketsFrom N.tokens N.frame.world object.number wallets.old }
    ensures seat { IsUnused N.table N.frame object.number result }
    ensures wallets { HaveTicketsFrom N.tokens N.frame.world (object.number + 1) wallets.new }
{
    let (_, seat, mut book) = object.into_parts(rt);
    retire_from_all::<N>(tickets, &mut book, wallets);
    seat
}

// The seats of these objects, which come after those whose seats are there.
fn push_unused<
    O: Object + Drop,
    N: Naming<Plan, TlmLaw>,
    L: Keeper<Locked<O, Plan, TlmLaw, N>> + Drop,
    R: Wait,
>(
    rt: &R,
    tickets: &Tokens,
    objects: Vec<Shared<O, Plan, TlmLaw, N, L>>,
    seats: &mut Vec<PlatSeat>,
    wallets: &mut [Wallet],
) -> Result<(), AllocError>
where
    TlmLaw: World<Plan, O>,
    requires tickets { tickets.now ≡ N.tokens }
    requires planned { AddUp N.frame }
    requires numbered { AreNumberedFrom N.frame (length seats.old.items) objects.items }
    requires seats { AreUnused N.table N.frame seats.old.items }
    requires wallets { HaveTicketsFrom N.tokens N.frame.world (length seats.old.items) wallets.old }
    ensures seats { OnOk result (AreUnused N.table N.frame seats.new.items) }
    ensures count { OnOk result (length seats.new.items ≡ length seats.old.items + length objects.items) }
    ensures wallets { OnOk result (HaveTicketsFrom N.tokens N.frame.world (length seats.new.items) wallets.new) }
{
    for object in objects {
        seats.push(unused_seat(rt, tickets, object, wallets))?;
    }
    Ok(())
}

// The seats of all objects of a net of which nothing was handed out.
fn unused_seats<N: Naming<Plan, TlmLaw>, S: Sharing<N>, R: Wait>(
    rt: &R,
    alloc: Global,
    tickets: &Tokens,
    memories: Vec<SharedMemory<N, S>>,
    hops: Vec<SharedHop<N, S>>,
    pools: Vec<SharedPool<N, S>>,
    wallets: &mut [Wallet],
) -> Result<Vec<PlatSeat>, AllocError>
    requires frame { N.frame ≡ frame_of N.frame.world }
    requires planned { AddUp N.frame }
    requires tickets { tickets.now ≡ N.tokens }
    requires memories { AreMemories N.frame.world memories.items }
    requires hops { AreHops N.frame.world.platform hops.items }
    requires pools { ArePools N.frame.world.platform pools.items }
    requires wallets { HaveTicketsFrom N.tokens N.frame.world 0 wallets.old }
    ensures seats { IfOk result (λ seats. AreUnused N.table N.frame seats.items) }
    ensures count { IfOk result (λ seats. length seats.items ≡ length N.frame.planned) }
{
    let mut seats = Vec::new(alloc);
    push_unused(rt, tickets, memories, &mut seats, wallets)?;
    push_unused(rt, tickets, hops, &mut seats, wallets)?;
    push_unused(rt, tickets, pools, &mut seats, wallets)?;
    Ok(seats)
}

/// Ends the history of a net of which nothing was handed out. It has no entries: this is what tells that
/// the history of a new net is empty. Its only error is want of memory.
pub fn close_unused<N: Naming<Plan, TlmLaw>, S: Sharing<N>, R: Wait>(
    rt: &R,
    alloc: Global,
    built: Built<N, S>,
) -> Result<Sealed<Content, Plan, TlmLaw>, Memory>
    requires frame { N.frame ≡ frame_of built.net }
    requires kept { built.kept ≡ all_waiting built.net.platform }
    ensures empty { IfOk result (λ s. s.entries ≡ []) }
    ensures world { IfOk result (λ s. (s.table ≡ N.table) × (s.world ≡ built.net)) }
{
    let Built { net, kept } = built;
    // There is an initiator, and its script tells that each has one.
    let _ = net.plan().platform();
    let _ = net.plan().script(0);
    let mut wallets = kept.into_wallets(alloc)?;
    let NetParts {
        history,
        tickets,
        memories,
        hops,
        pools,
    } = net.into_parts();
    let seats = unused_seats::<N, S, R>(rt, alloc, &tickets, memories, hops, pools, &mut wallets)?;
    let Closed::Done(sealed) = history.close(seats, Vec::new(alloc)) else {
        unreachable!()
    };
    Ok(sealed)
}
