// The calls that a net makes at its memories.
ghost use Rattle.std.specs.Prelude.{◌≡◌, ◌+◌, ◌<◌, ◌≤◌, [], ◌∷◌, ◌++◌, IfNone, IfSome, MatchOption, length};
ghost use Rattle.std.specs.Option.{ForSome};
ghost use Rattle.tlm_types.specs.declared.words.Command.TheVariants.{Read};
ghost use Rattle.tlm_types.specs.declared.words.Response.TheVariants.{AddressError};
ghost use Rattle.view_lists.specs.Lists.{Within};
ghost use Rattle.one_history.specs.Lists.{StandBelow};
ghost use Rattle.shared_object.specs.Steps.{IsNote};
ghost use Rattle.token_book.specs.Purse.{IsOf, bytes_of, left_of};
ghost use Rattle.region_object.specs.Call.{HasPayload, IsFit, cost_of, payload_cost, payload_of, returned, txn_of};
ghost use Rattle.region_object.specs.declared.call.RegionCall.TheVariants.{Debug};
ghost use Rattle.plat_net.specs.Calls.{CanPay, HasNoPassage, IsCalled, OneTicketLess, route_at};

use crate::law::{PlatNote, TlmLaw};
use crate::net::Net;
use crate::sharing::Sharing;
use generic_payload::Payload;
use region_object::{RegionCall, RegionReply};
use route_plan::Plan;
use shared_object::{Naming, Stepped};
use std::sync::Wait;
use tlm_types::{Ps, Response, TxnId};
use token_book::Wallet;

/// What comes back from transport: the payload, a note that knows what the memory has written, and the
/// initiator's time in picoseconds.
#[derive(Drop)]
pub struct Carried {
    pub payload: Payload,
    pub note: PlatNote,
    pub at: Ps,
}

// The payload that a memory hands back.
pub(crate) fn returned(reply: RegionReply) -> Payload
    requires { HasPayload reply }
    ensures { result ≡ returned reply }
{
    match reply {
        RegionReply::Accessed { payload }
        | RegionReply::Moved { payload, .. }
        | RegionReply::Direct { payload } => payload,
        _ => unreachable!(),
    }
}

impl<N: Naming<Plan, TlmLaw>, S: Sharing<N>> Net<N, S> {
    /// Makes a call at the memory with this number, as one entry of the history. The note comes back
    /// knowing all that the memory has written, and the wallet has one ticket of that memory less, for
    /// the bytes of the call. It takes no memory, and no lock is held afterwards. An access of a four-phase
    /// initiator is made by what its hops carry, and never so.
    pub fn call_memory<R: Wait>(
        &self,
        rt: &R,
        memory: u32,
        note: PlatNote,
        wallet: &mut Wallet,
        call: RegionCall,
    ) -> (Payload, PlatNote)
        requires memory { memory < length self.now.platform.memories }
        requires fit { IsFit call }
        requires passage { HasNoPassage self.now (txn_of call) }

        // Who pays for it.
        requires note { IsNote N.table note }
        requires wallet { IsOf N.tokens wallet.old }
        requires ticket { (0 < left_of wallet.old memory) × (cost_of call ≤ bytes_of wallet.old memory) }

        // What happened at the memory.
        ensures entry { IsCalled self.now memory call note.knows result.1.knows result.0 }

        // What comes back.
        ensures room { result.0.room ≡ (payload_of call).room }
        ensures note { IsNote N.table result.1 }
        ensures looks { result.1.knows.looks ≡ note.knows.looks ++ (memory, 0) ∷ [] }
        ensures wallet { IsOf N.tokens wallet.new }
        ensures ticket { OneTicketLess memory (cost_of call) wallet.old wallet.new }
    {
        let _ = self.plan();
        let ticket = wallet.pull(self.tickets(), memory, call.cost());
        let place = self.memory(memory);
        let stepped = place.step(rt, self.history(), self.tickets(), note, Some(ticket), call);
        let Stepped {
            reply,
            position: _,
            note,
            ticket: _,
        } = stepped;
        (returned(reply), note)
    }

    /// A debug read of an initiator (IEEE 1666-2011, clause 11.3), which takes no time. Where the address
    /// has a route, it is one entry of that memory, at the time at which it was made, and the bytes come
    /// back at the front of the payload's data. Without a route nothing is moved, the status is
    /// ADDRESS_ERROR, and there is no entry.
    pub fn debug<R: Wait>(
        &self,
        rt: &R,
        who: u32,
        mut payload: Payload,
        note: PlatNote,
        wallet: &mut Wallet,
        txn: TxnId,
        at: Ps,
    ) -> Carried
        requires who { who < length self.now.platform.initiators }
        requires read { payload.command ≡ Read }
        requires passage { HasNoPassage self.now txn }

        // Who pays for it.
        requires note { IsNote N.table note }
        requires wallet { IsOf N.tokens wallet.old }
        requires ticket { ForSome (route_at self.now who payload.address) (CanPay payload wallet.old) }

        // What happened at the memory, where there is a route.
        ensures entry { IfSome (route_at self.now who payload.address)
            (λ route. IsCalled self.now route.memory (Debug txn at (record payload { address = route.offset }))
            note.knows result.note.knows result.payload) }
        ensures no_entry { IfNone (route_at self.now who payload.address)
            ((result.payload ≡ record payload { status = AddressError }) × (result.note ≡ note)) }

        // What comes back.
        ensures room { result.payload.room ≡ payload.room }
        ensures time { result.at ≡ at }
        ensures note { IsNote N.table result.note }
        ensures knew { Within note.knows.known result.note.knows.known }
        ensures below { StandBelow note.knows.known note.knows.seen → StandBelow result.note.knows.known result.note.knows.seen }
        ensures wallet { IsOf N.tokens wallet.new }
        ensures ticket { MatchOption (route_at self.now who payload.address) (wallet.new ≡ wallet.old)
            (λ route. OneTicketLess route.memory (payload_cost payload) wallet.old wallet.new) }
    {
        let Some(route) = self.plan().route(who, payload.address()) else {
            payload.set_status(Response::AddressError);
            return Carried { payload, note, at };
        };
        payload.set_address(route.offset);
        let call = RegionCall::Debug {
            txn,
            time: at,
            payload,
        };
        let (payload, note) = self.call_memory(rt, route.memory, note, wallet, call);
        Carried { payload, note, at }
    }
}
