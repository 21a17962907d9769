// Invalidation.
ghost use Rattle.std.specs.Prelude.{◌≡◌, ◌≢◌, ◌<◌, ◌≤◌, ℕ, true, length, IsTrue};
ghost use Rattle.view_lists.specs.Lists.{Within};
ghost use Rattle.one_history.specs.Gates.{IsRevoked, total_gates};
ghost use Rattle.one_history.specs.Lists.{StandBelow};
ghost use Rattle.shared_object.specs.Steps.{IsNote};
ghost use Rattle.shared_object.specs.Written.{written_at};
ghost use Rattle.token_book.specs.Purse.{IsOf, left_of};
ghost use Rattle.tlm_types.specs.declared.entry.What.TheVariants.{Closed, Invalidated};
ghost use Rattle.plat_net.specs.Calls.{HasNoPassage};
ghost use Rattle.node_hops.specs.Steps.{HasNew, IsAccessOf};
ghost use Rattle.dmi_grants.specs.Invalidating.{HasClosed, HasInvalidated, IsToldIn};
ghost use Rattle.dmi_grants.specs.Made.{HasSpent, IsRoomyFor, is_given_in, unclosed};
ghost use Rattle.dmi_grants.specs.Revoking.{IsClosingEntry, IsEntryFor, IsRevocationEntry, IsRevoking, RevokesAll, RevokesMore, entries_by, one_if};

use crate::made::{least_open, make_paid};
use plat_net::{Net, PlatNote, Sharing, TlmLaw};
use region_object::RegionCall;
use route_plan::Plan;
use shared_object::Naming;
use std::sync::Wait;
use tlm_types::{Ps, TxnId};
use token_book::Wallet;

/// An invalidation that was told and has not returned: of the bytes from `first` to `last` of a memory, in this
/// transaction and at the time `at`, in picoseconds. Its own entry stands at `position`.
#[derive(Clone, Copy)]
pub struct Revocation {
    pub memory: u32,
    pub first: u64,
    pub last: u64,
    pub position: u64,
    pub txn: TxnId,
    pub at: Ps,
}

/// What became of the next grant that an invalidation is to end.
#[derive(Clone, Copy, Debug, PartialEq, Eq)]
pub enum Ending {
    /// It was closed, in one entry.
    Closed,
    /// Somebody else has closed it meanwhile.
    ByOthers,
    /// None was left, and the invalidation has returned.
    Returned,
}

/// Invalidates the bytes from `first` to `last` of a memory (`invalidate_direct_mem_ptr`, clause 11.2.6), at
/// the time `at`, in picoseconds: it tells so, in one entry, and ends each grant that was given before and
/// overlaps them, one gate after another in rising order. It marks the gate, waits until nobody is inside,
/// and closes it. When it returns, each of them has its closing, and the note knows it. It needs a ticket of
/// the memory for its own entry, and where the memory grants direct access one for each of its gates that
/// isn't known to be closed; those for closings that others have made stay in the wallet.
pub fn invalidate<N: Naming<Plan, TlmLaw>, S: Sharing<N>, R: Wait>(
    net: &Net<N, S>,
    rt: &R,
    memory: u32,
    first: u64,
    last: u64,
    note: PlatNote,
    wallet: &mut Wallet,
    txn: TxnId,
    at: Ps,
) -> PlatNote
    requires memory { memory < length N.frame.world.platform.memories }
    requires passage { HasNoPassage N.frame.world txn }
    requires note { IsNote N.table note }

    // Who pays for it.
    requires wallet { IsOf N.tokens wallet.old }
    requires room { IsRoomyFor memory wallet.old }
    requires tickets { unclosed N.frame.world memory (written_at memory note.knows.known) < left_of wallet.old memory }

    // What happened, what the note knows, and the tickets that were spent.
    ensures invalidated { HasInvalidated N.frame memory txn at first last note.knows result.knows wallet.old wallet.new }

    // What comes back.
    ensures note { IsNote N.table result }
    ensures wallet { IsOf N.tokens wallet.new }
    ensures room { IsRoomyFor memory wallet.new }
    ensures rooms { (m : ℕ) → IsRoomyFor m wallet.old → IsRoomyFor m wallet.new }
{
    let (revocation, mut now) = begin_invalidation(
        net, rt, memory, first, last, note, wallet, txn, at,
    );
    for _ in rt.forever() {
        let (ending, next) = end_next_grant(net, rt, &revocation, now, wallet);
        now = next;
        if let Ending::Returned = ending {
            return now;
        }
    }
    unreachable!()
}

/// Begins an invalidation, as `invalidate` makes it: it tells so, in one entry. After it the grants are to be ended one by one,
/// until none is left. It needs a ticket of the memory.
pub fn begin_invalidation<N: Naming<Plan, TlmLaw>, S: Sharing<N>, R: Wait>(
    net: &Net<N, S>,
    rt: &R,
    memory: u32,
    first: u64,
    last: u64,
    note: PlatNote,
    wallet: &mut Wallet,
    txn: TxnId,
    at: Ps,
) -> (Revocation, PlatNote)
    requires memory { memory < length N.frame.world.platform.memories }
    requires passage { HasNoPassage N.frame.world txn }
    requires note { IsNote N.table note }

    // Who pays for it.
    requires wallet { IsOf N.tokens wallet.old }
    requires room { IsRoomyFor memory wallet.old }
    requires ticket { 0 < left_of wallet.old memory }

    // What is under way.
    ensures is { result.0 ≡ record { memory = memory; first = first; last = last; position = result.0.position; txn = txn; at = at } }
    ensures revoking { IsRevoking N.frame result.0 note.knows result.1.knows wallet.old wallet.new }

    // The entry that was made.
    ensures told { StandBelow note.knows.known note.knows.seen
        → HasNew (IsRevocationEntry N.frame.world result.0 (Invalidated first last)) note.knows.known result.1.knows.known }
    ensures adds { StandBelow note.knows.known note.knows.seen
        → HasNew (IsAccessOf N.frame.world txn.initiator) note.knows.known result.1.knows.known }

    // What comes back.
    ensures keeps { Within note.knows.known result.1.knows.known }
    ensures below { StandBelow result.1.knows.known result.1.knows.seen }
    ensures note { IsNote N.table result.1 }
    ensures wallet { IsOf N.tokens wallet.new }
    ensures room { IsRoomyFor memory wallet.new }
    ensures rooms { (m : ℕ) → IsRoomyFor m wallet.old → IsRoomyFor m wallet.new }
{
    let call = RegionCall::Invalidate {
        txn,
        time: at,
        first,
        last,
    };
    let (_, position, note) = make_paid(net, rt, memory, note, wallet, call);
    let Some(position) = position else {
        unreachable!()
    };
    let revocation = Revocation {
        memory,
        first,
        last,
        position,
        txn,
        at,
    };
    (revocation, note)
}

/// Ends the first grant that is open before an invalidation and that it overlaps: it marks the gate, waits until nobody is
/// inside, and closes it, in one entry, unless somebody else has closed it meanwhile. Where there is none, the invalidation has
/// returned, and the note knows the closing of each such grant. Others may have made entries since the last one was ended. It
/// needs a ticket of the memory for each of its gates that isn't known to be closed.
pub fn end_next_grant<N: Naming<Plan, TlmLaw>, S: Sharing<N>, R: Wait>(
    net: &Net<N, S>,
    rt: &R,
    revocation: &Revocation,
    note: PlatNote,
    wallet: &mut Wallet,
) -> (Ending, PlatNote)
    requires memory { revocation.now.memory < length N.frame.world.platform.memories }
    requires passage { HasNoPassage N.frame.world revocation.now.txn }
    requires note { IsNote N.table note }
    requires told { IsToldIn (written_at revocation.now.memory note.knows.known) revocation.now.first revocation.now.last revocation.now.position }

    // Who pays for it.
    requires wallet { IsOf N.tokens wallet.old }
    requires room { IsRoomyFor revocation.now.memory wallet.old }
    requires tickets { unclosed N.frame.world revocation.now.memory (written_at revocation.now.memory note.knows.known) ≤ left_of wallet.old revocation.now.memory }

    // What became of the invalidation, from where it began.
    ensures more { result.0 ≢ Ending.Returned → RevokesMore N.frame revocation.now note.knows result.1.knows wallet.old wallet.new }
    ensures all { result.0 ≡ Ending.Returned → RevokesAll N.frame revocation.now note.knows result.1.knows wallet.old wallet.new }

    // The entry that was made.
    ensures closed { result.0 ≡ Ending.Closed → HasNew (IsClosingEntry N.frame.world revocation.now) note.knows.known result.1.knows.known }
    ensures adds { result.0 ≡ Ending.Closed → HasNew (IsAccessOf N.frame.world revocation.now.txn.initiator) note.knows.known result.1.knows.known }

    ensures spent { HasSpent revocation.now.memory (entries_by result.0) wallet.old wallet.new }

    // What comes back.
    ensures keeps { Within note.knows.known result.1.knows.known }
    ensures below { StandBelow result.1.knows.known result.1.knows.seen }
    ensures note { IsNote N.table result.1 }
    ensures wallet { IsOf N.tokens wallet.new }
    ensures room { IsRoomyFor revocation.now.memory wallet.new }
    ensures rooms { (m : ℕ) → IsRoomyFor m wallet.old → IsRoomyFor m wallet.new }
{
    let Revocation {
        memory,
        first,
        last,
        position,
        txn,
        at,
    } = *revocation;
    let (open, note) = least_open(net, rt, memory, first, last, position, note);
    match open {
        None => (Ending::Returned, note),
        Some(gate) => {
            let (closed, note) = end(net, rt, memory, gate, note, wallet, txn, at);
            (ended_by(closed), note)
        }
    }
}

// What became of a grant that is ended: its gate was closed by an own entry, or by another one.
fn ended_by(own: bool) -> Ending
    ensures own { result ≡ Ending.Closed → own ≡ true }
    ensures ended { result ≢ Ending.Returned }
    ensures entries { entries_by result ≡ one_if own }
{
    if own {
        Ending::Closed
    } else {
        Ending::ByOthers
    }
}

// Ends the grant of a gate: marks it, waits until nobody is inside, and closes it, unless somebody else
// has closed it meanwhile. Says whether it did.
fn end<N: Naming<Plan, TlmLaw>, S: Sharing<N>, R: Wait>(
    net: &Net<N, S>,
    rt: &R,
    memory: u32,
    gate: u32,
    mut note: PlatNote,
    wallet: &mut Wallet,
    txn: TxnId,
    at: Ps,
) -> (bool, PlatNote)
    requires memory { memory < length N.frame.world.platform.memories }
    requires passage { HasNoPassage N.frame.world txn }
    requires note { IsNote N.table note }
    requires gate { gate < total_gates N.frame }
    requires granted { IsTrue (is_given_in (written_at memory note.knows.known) gate) }
    requires revoked { IsRevoked note.knows.known gate }
    requires below { StandBelow note.knows.known note.knows.seen }
    requires wallet { IsOf N.tokens wallet.old }
    requires room { IsRoomyFor memory wallet.old }
    requires ticket { 0 < left_of wallet.old memory }
    ensures closed { HasClosed N.frame memory txn at gate note.knows result.1.knows wallet.old wallet.new }
    ensures adds { result.0 ≡ true → HasNew (IsEntryFor N.frame.world memory txn at (Closed gate)) note.knows.known result.1.knows.known }
    ensures spent { HasSpent memory (one_if result.0) wallet.old wallet.new }
    ensures below { StandBelow result.1.knows.known result.1.knows.seen }
    ensures note { IsNote N.table result.1 }
    ensures wallet { IsOf N.tokens wallet.new }
    ensures room { IsRoomyFor memory wallet.new }
    ensures rooms { (m : ℕ) → IsRoomyFor m wallet.old → IsRoomyFor m wallet.new }
{
    let history = net.history();
    history.mark(&mut note, gate);
    history.drain(rt, &mut note, gate);
    let call = RegionCall::Close {
        txn,
        time: at,
        gate,
    };
    let (_, position, note) = make_paid(net, rt, memory, note, wallet, call);
    (position.is_some(), note)
}
