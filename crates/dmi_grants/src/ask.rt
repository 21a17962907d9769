// A wish for a grant.
ghost use Rattle.std.specs.Prelude.{◌≡◌, ℕ, ◌+◌, ◌-◌, ◌<◌, ◌≤◌, IsSomeAnd, Some, length};
ghost use Rattle.std.specs.Option.{ForSome};
ghost use Rattle.shared_object.specs.Steps.{IsNote};
ghost use Rattle.token_book.specs.Purse.{IsOf, left_of};
ghost use Rattle.region_object.specs.Call.{IsReadOrWrite};
ghost use Rattle.plat_net.specs.Calls.{HasNoPassage, route_at};
ghost use Rattle.dmi_grants.specs.Asking.{HasAsked, MayAsk};
ghost use Rattle.dmi_grants.specs.Made.{IsRoomyFor};
ghost use Rattle.dmi_grants.specs.Ranges.{AreAddressesOf, lifted_at};

use crate::made::make_paid;
use crate::range::{Lifted, addresses};
use crate::table::{GrantTable, Held};
use plat_net::{Net, PlatNote, Sharing, TlmLaw};
use region_object::{Denial, RegionCall, RegionReply};
use route_plan::{Plan, Route};
use shared_object::Naming;
use std::sync::Wait;
use tlm_types::{Command, Kind, Ps, TxnId};
use token_book::Wallet;

/// What a wish for a grant answers: the index at which the grant is held, or why there is none.
#[derive(Clone, Copy, Debug, PartialEq, Eq)]
pub enum Asked {
    Held(u32),
    Denied(Denial),
}

/// Whose wish for a grant it is, for which access, in which transaction and at which time.
#[derive(Clone, Copy)]
struct Wish {
    who: u32,
    command: Command,
    address: u64,
    txn: TxnId,
    at: Ps,
}

// What is held of a grant that the memory at the end of the wish's route gave in the entry at this position:
// with it go the addresses that lead into its range.
fn held_for(
    plan: &Plan,
    wish: Wish,
    route: Route,
    gate: u32,
    first: u64,
    last: u64,
    kind: Kind,
    position: u64,
) -> Held
    requires who { wish.who < length plan.now.platform.initiators }
    requires route { route_at plan.now wish.who wish.address ≡ Some route }
    requires inside { (first ≤ route.offset) × (route.offset ≤ last) }

    // What the memory gave, and in which entry.
    ensures given { (result.gate ≡ gate) × (result.first ≡ first) × (result.last ≡ last) × (result.kind ≡ kind) }
    ensures entry { (result.memory ≡ route.memory) × (result.position ≡ position) × (result.txn ≡ wish.txn) × (result.time ≡ wish.at) }

    // The addresses.
    ensures range { lifted_at plan.now wish.who wish.address (result.first, result.last) ≡ Some (result.low, result.high) }
    ensures all { AreAddressesOf plan.now wish.who route.memory result.first result.last result.low result.high result.base }
    ensures within { (result.low ≤ wish.address) × (wish.address ≤ result.high) }
    ensures base { result.base + (wish.address - result.low) ≡ route.offset }
    ensures inside { (result.first ≤ result.base) × (result.base + (result.high - result.low) ≤ result.last) }
{
    let Lifted { low, high, base } = addresses(plan, wish.who, wish.address, route, first, last);
    Held {
        gate,
        memory: route.memory,
        first,
        last,
        kind,
        position,
        txn: wish.txn,
        time: wish.at,
        low,
        high,
        base,
    }
}

impl GrantTable {
    /// Wishes for direct access by this command at the memory that the address leads to, and holds the
    /// grant (`get_direct_mem_ptr`, clause 11.2.5), which is one entry, at the time `at`, in picoseconds. The
    /// addresses that it covers are those that lead into the grant's range: the range is translated up and
    /// cut to the windows on the way. It is to be called right after an access that was OK and had the DMI
    /// hint. The address has a route to an offset below the memory's size, and the table has a free place for
    /// each gate of that memory that it doesn't hold. A ticket of the memory is needed unless all its gates
    /// are known to be given, and it is spent where a grant is given.
    pub fn ask<N: Naming<Plan, TlmLaw>, S: Sharing<N>, R: Wait>(
        &mut self,
        net: &Net<N, S>,
        rt: &R,
        who: u32,
        command: Command,
        address: u64,
        note: PlatNote,
        wallet: &mut Wallet,
        txn: TxnId,
        at: Ps,
    ) -> (Asked, PlatNote)
        requires who { who < length N.frame.world.platform.initiators }
        requires command { IsReadOrWrite command }
        requires passage { HasNoPassage N.frame.world txn }
        requires note { IsNote N.table note }
        requires wallet { IsOf N.tokens wallet.old }
        requires may { IsSomeAnd (route_at N.frame.world who address) (MayAsk N.frame.world command self.old note.knows wallet.old) }

        // What happened at the memory, what the table holds then, and the ticket that was spent.
        ensures asked { ForSome (route_at N.frame.world who address) (λ route.
            HasAsked N.frame who command address route txn at self.old self.new note.knows result.1.knows wallet.old wallet.new result.0) }

        // What comes back.
        ensures note { IsNote N.table result.1 }
        ensures wallet { IsOf N.tokens wallet.new }
        ensures room { ForSome (route_at N.frame.world who address) (λ route. IsRoomyFor route.memory wallet.new) }
        ensures rooms { (m : ℕ) → IsRoomyFor m wallet.old → IsRoomyFor m wallet.new }
    {
        let Some(route) = net.plan().route(who, address) else {
            unreachable!()
        };
        if wallet.left(route.memory) == 0 {
            return (Asked::Denied(Denial::GatesSpent), note);
        }
        let wish = Wish {
            who,
            command,
            address,
            txn,
            at,
        };
        self.ask_at(net, rt, wish, route, note, wallet)
    }

    // Wishes at the end of the wish's route, where a ticket is left, and holds what is granted.
    fn ask_at<N: Naming<Plan, TlmLaw>, S: Sharing<N>, R: Wait>(
        &mut self,
        net: &Net<N, S>,
        rt: &R,
        wish: Wish,
        route: Route,
        note: PlatNote,
        wallet: &mut Wallet,
    ) -> (Asked, PlatNote)
        requires who { wish.who < length N.frame.world.platform.initiators }
        requires command { IsReadOrWrite wish.command }
        requires passage { HasNoPassage N.frame.world wish.txn }
        requires route { route_at N.frame.world wish.who wish.address ≡ Some route }
        requires note { IsNote N.table note }
        requires wallet { IsOf N.tokens wallet.old }
        requires left { 0 < left_of wallet.old route.memory }
        requires may { MayAsk N.frame.world wish.command self.old note.knows wallet.old route }
        ensures asked { HasAsked N.frame wish.who wish.command wish.address route wish.txn wish.at self.old self.new note.knows result.1.knows wallet.old wallet.new result.0 }
        ensures note { IsNote N.table result.1 }
        ensures wallet { IsOf N.tokens wallet.new }
        ensures room { IsRoomyFor route.memory wallet.new }
        ensures rooms { (m : ℕ) → IsRoomyFor m wallet.old → IsRoomyFor m wallet.new }
    {
        let call = RegionCall::Grant {
            txn: wish.txn,
            time: wish.at,
            command: wish.command,
        };
        let (reply, position, note) = make_paid(net, rt, route.memory, note, wallet, call);
        match reply {
            RegionReply::Granted {
                gate,
                first,
                last,
                kind,
            } => {
                let Some(position) = position else {
                    unreachable!()
                };
                let held = held_for(net.plan(), wish, route, gate, first, last, kind, position);
                let which = self.hold(held);
                (Asked::Held(which), note)
            }
            RegionReply::Denied(denial) => (Asked::Denied(denial), note),
            _ => unreachable!(),
        }
    }
}
