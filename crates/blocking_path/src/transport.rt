// Blocking and debug transport.
ghost use Rattle.std.specs.Prelude.{◌≡◌, ◌+◌, ◌<◌, ◌≤◌, IfNone, IfSome, MatchOption, length};
ghost use Rattle.std.specs.Option.{ForSome};
ghost use Rattle.tlm_types.specs.declared.words.Command.TheVariants.{Read};
ghost use Rattle.tlm_types.specs.declared.words.Response.TheVariants.{AddressError};
ghost use Rattle.tlm_types.specs.declared.words.Way.TheVariants.{Blocking};
ghost use Rattle.tlm_model.specs.Route.{later};
ghost use Rattle.tlm_model.specs.Store.{zeros};
ghost use Rattle.route_plan.specs.Plans.{walk_at};
ghost use Rattle.shared_object.specs.Steps.{IsNote};
ghost use Rattle.token_book.specs.Purse.{IsOf};
ghost use Rattle.region_object.specs.Call.{payload_cost};
ghost use Rattle.region_object.specs.declared.call.RegionCall.TheVariants.{Access, Debug};
ghost use Rattle.plat_net.specs.Calls.{CanPay, HasNoPassage, IsCalled, OneTicketLess, route_at};

use generic_payload::Payload;
use plat_net::{Carried, Net, PlatNote, Reach, Sharing, TlmLaw};
use region_object::RegionCall;
use route_plan::{Plan, Route};
use shared_object::Naming;
use std::sync::Wait;
use tlm_types::{Ps, Response, TxnId, Way};
use token_book::Wallet;

/// The standard's `b_transport` (clause 11.1.1): makes an access of an initiator by blocking transport,
/// issued at `at`, in picoseconds. Along its route it passes the routers, each of which adds its
/// latency and translates the address, and arrives at a memory, where it is one entry, at the time of
/// arrival. The time that comes back is `at` and the latency of the whole route. Where a router on the
/// way has no window for the address, the status is ADDRESS_ERROR, there is no entry, and the latency
/// of that router counts too. It is for initiators that aren't of four phases: the transaction passes no
/// hop.
pub fn b_transport<N: Naming<Plan, TlmLaw>, S: Sharing<N>, R: Wait>(
    net: &Net<N, S>,
    rt: &R,
    who: u32,
    mut payload: Payload,
    note: PlatNote,
    wallet: &mut Wallet,
    txn: TxnId,
    at: Ps,
) -> Carried
    requires who { who < length net.now.platform.initiators }
    requires buffer { payload.command ≡ Read → payload.bytes ≡ zeros (length payload.bytes) }
    requires passage { HasNoPassage net.now txn }

    // Who pays for it.
    requires note { IsNote N.table note }
    requires wallet { IsOf N.tokens wallet.old }
    requires ticket { ForSome (route_at net.now who payload.address) (CanPay payload wallet.old) }

    // What happened at the memory, where there is a route.
    ensures entry { IfSome (route_at net.now who payload.address) (λ route. IsCalled net.now route.memory
        (Access txn (later at route.before) Blocking (record payload { address = route.offset }))
        note.knows result.note.knows result.payload) }
    ensures no_entry { IfNone (route_at net.now who payload.address)
        ((result.payload ≡ record payload { status = AddressError }) × (result.note ≡ note)) }

    // What comes back.
    ensures room { result.payload.room ≡ payload.room }
    ensures time { result.at ≡ later at (walk_at net.now who payload.address).latency }
    ensures note { IsNote N.table result.note }
    ensures wallet { IsOf N.tokens wallet.new }
    ensures ticket { MatchOption (route_at net.now who payload.address) (wallet.new ≡ wallet.old)
        (λ route. OneTicketLess route.memory (payload_cost payload) wallet.old wallet.new) }
{
    let Some(route) = net.plan().route(who, payload.address()) else {
        let latency = net.plan().latency(who, payload.address());
        payload.set_status(Response::AddressError);
        return Carried {
            payload,
            note,
            at: at.saturating_add(latency),
        };
    };
    let mut reach = net;
    b_transport_along(&mut reach, rt, &route, payload, note, wallet, txn, at)
}

/// Makes an access by blocking transport along a route, as `b_transport` does along that of the address:
/// the payload is taken to the end of the route, whatever address it has, and is one entry there, at the
/// time of its arrival. The time that comes back is `at` and the latency of the route. Whoever has the net
/// alone takes no lock.
#[inline(always)]
pub fn b_transport_along<N: Naming<Plan, TlmLaw>, S: Sharing<N>, B: Reach<N, S>, R: Wait>(
    reach: &mut B,
    rt: &R,
    route: &Route,
    mut payload: Payload,
    note: PlatNote,
    wallet: &mut Wallet,
    txn: TxnId,
    at: Ps,
) -> Carried
    requires memory { route.now.memory < length N.frame.world.platform.memories }
    requires buffer { payload.command ≡ Read → payload.bytes ≡ zeros (length payload.bytes) }
    requires passage { HasNoPassage N.frame.world txn }

    // Who pays for it.
    requires note { IsNote N.table note }
    requires wallet { IsOf N.tokens wallet.old }
    requires ticket { CanPay payload wallet.old route.now }

    // What happened at the memory.
    ensures entry { IsCalled N.frame.world route.now.memory
        (Access txn (later at route.now.before) Blocking (record payload { address = route.now.offset }))
        note.knows result.note.knows result.payload }

    // What comes back.
    ensures room { result.payload.room ≡ payload.room }
    ensures time { result.at ≡ later at route.now.latency }
    ensures note { IsNote N.table result.note }
    ensures wallet { IsOf N.tokens wallet.new }
    ensures ticket { OneTicketLess route.now.memory (payload_cost payload) wallet.old wallet.new }
{
    payload.set_address(route.offset);
    let call = RegionCall::Access {
        txn,
        time: at.saturating_add(route.before),
        way: Way::Blocking,
        payload,
    };
    let (payload, note) = reach.call(rt, route.memory, note, wallet, call);
    Carried {
        payload,
        note,
        at: at.saturating_add(route.latency),
    }
}

/// Makes a debug read of an initiator (clause 11.3), at the time `at`, which comes back unchanged. Along its
/// route it is one entry of that memory, and the bytes come back at the front of the payload's data.
/// Without a route nothing is moved, the status is ADDRESS_ERROR, and there is no entry.
pub fn transport_dbg<N: Naming<Plan, TlmLaw>, S: Sharing<N>, R: Wait>(
    net: &Net<N, S>,
    rt: &R,
    who: u32,
    payload: Payload,
    note: PlatNote,
    wallet: &mut Wallet,
    txn: TxnId,
    at: Ps,
) -> Carried
    requires who { who < length net.now.platform.initiators }
    requires read { payload.command ≡ Read }
    requires passage { HasNoPassage net.now txn }

    // Who pays for it.
    requires note { IsNote N.table note }
    requires wallet { IsOf N.tokens wallet.old }
    requires ticket { ForSome (route_at net.now who payload.address) (CanPay payload wallet.old) }

    // What happened at the memory, where there is a route.
    ensures entry { IfSome (route_at net.now who payload.address) (λ route. IsCalled net.now route.memory
        (Debug txn at (record payload { address = route.offset })) note.knows result.note.knows result.payload) }
    ensures no_entry { IfNone (route_at net.now who payload.address)
        ((result.payload ≡ record payload { status = AddressError }) × (result.note ≡ note)) }

    // What comes back.
    ensures room { result.payload.room ≡ payload.room }
    ensures time { result.at ≡ at }
    ensures note { IsNote N.table result.note }
    ensures wallet { IsOf N.tokens wallet.new }
    ensures ticket { MatchOption (route_at net.now who payload.address) (wallet.new ≡ wallet.old)
        (λ route. OneTicketLess route.memory (payload_cost payload) wallet.old wallet.new) }
{
    net.debug(rt, who, payload, note, wallet, txn, at)
}
