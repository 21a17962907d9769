// What a port does where it makes a debug read.
ghost use Rattle.std.specs.Prelude.{◌≡◌, ℕ, ◌<◌, ◌≤◌, IsSome, Some, None, length, slice_get};
ghost use Rattle.one_history.specs.Lists.{StandBelow};
ghost use Rattle.view_lists.specs.Lists.{Within};
ghost use Rattle.shared_object.specs.Steps.{IsNote};
ghost use Rattle.tlm_types.specs.declared.words.Command.TheVariants.{Read};
ghost use Rattle.tlm_model.specs.Plan.{Initiator, initiators_of};
ghost use Rattle.token_book.specs.Purse.{HasPlace, IsOf, bytes_of, empty_purse, left_of};
ghost use Rattle.region_object.specs.Call.{payload_cost};
ghost use Rattle.route_plan.specs.declared.step.Route.{Route};
ghost use Rattle.script_engine.specs.declared.part.Part.TheVariants.{Asks};
ghost use Rattle.script_engine.specs.declared.part.TransferKind.TheVariants as kinds;
ghost use Rattle.script_engine.specs.State.{next_of, payload_of};
ghost use Rattle.plat_net.specs.Calls.{HasNoPassage, route_at};
ghost use Rattle.port_moves.specs.Moves.{port_read};
ghost use Rattle.port_moves.specs.Reads.{HasAsked};
ghost use Rattle.port_moves.specs.Returned.{with_port};

use crate::state::PortState;
use crate::wallets::hand_one;
use cargo_net::TlmLaw;
use generic_payload::Payload;
use plat_net::{Carried, Net, PlatNote, Sharing};
use region_object::payload_cost;
use route_plan::Plan;
use script_engine::Transfer;
use shared_object::Naming;
use std::sync::Wait;
use tlm_types::{Command, Ps, TxnId};
use token_book::Wallet;

// The call of a debug read, which pays for it with a ticket of a wallet. The ticket goes through a purse,
// so that nothing else of the wallet is touched.
fn ask<N: Naming<Plan, TlmLaw>, S: Sharing<N>, R: Wait>(
    rt: &R,
    net: &Net<N, S>,
    who: u32,
    payload: Payload,
    note: PlatNote,
    wallet: &mut Wallet,
    purse: &mut Wallet,
    txn: TxnId,
    at: Ps,
) -> Carried
    requires who { who < length net.now.platform.initiators }
    requires read { payload.command ≡ Read }
    requires passage { HasNoPassage net.now txn }
    requires note { IsNote N.table note }
    requires wallet { IsOf N.tokens wallet.old }
    requires places { (o : ℕ) → HasPlace wallet.old o → o < wallet.old.places }
    requires ticket { (r : Route) → route_at net.now who payload.address ≡ Some r → (0 < left_of wallet.old r.memory) × (payload_cost payload ≤ bytes_of wallet.old r.memory) }
    requires purse { purse.old ≡ empty_purse 1 }
    ensures purse { purse.new ≡ purse.old }
    ensures asked { HasAsked N.tokens net.now who txn at payload result.payload note result.note wallet.old wallet.new }
    ensures room { result.payload.room ≡ payload.room }
    ensures note { IsNote N.table result.note }
    ensures knew { Within note.knows.known result.note.knows.known }
    ensures below { StandBelow note.knows.known note.knows.seen → StandBelow result.note.knows.known result.note.knows.seen }
{
    let Some(route) = net.plan().route(who, payload.address()) else {
        return net.debug(rt, who, payload, note, purse, txn, at);
    };
    let cost = payload_cost(&payload);
    hand_one(net.tickets(), wallet, purse, route.memory, cost);
    let carried = net.debug(rt, who, payload, note, purse, txn, at);
    wallet.put_all(net.tickets(), purse);
    carried
}

impl PortState {
    /// The call of a debug read, at the current time, with a ticket of its wallet.
    pub fn ask<N: Naming<Plan, TlmLaw>, S: Sharing<N>, R: Wait>(
        &mut self,
        rt: &R,
        net: &Net<N, S>,
        who: u32,
        payload: Payload,
        note: PlatNote,
        txn: TxnId,
    ) -> Carried
        requires who { who < length net.now.platform.initiators }
        requires read { payload.command ≡ Read }
        requires passage { HasNoPassage net.now txn }
        requires note { IsNote N.table note }
        requires wallet { IsOf N.tokens self.old.wallet }
        requires places { (o : ℕ) → HasPlace self.old.wallet o → o < self.old.wallet.places }
        requires ticket { (r : Route) → route_at net.now who payload.address ≡ Some r → (0 < left_of self.old.wallet r.memory) × (payload_cost payload ≤ bytes_of self.old.wallet r.memory) }
        ensures state { self.new ≡ (let wallet = self.new.wallet in record self.old { wallet = wallet }) }
        ensures asked { HasAsked N.tokens net.now who txn self.old.port.time payload result.payload note result.note self.old.wallet self.new.wallet }
        ensures room { result.payload.room ≡ payload.room }
        ensures note { IsNote N.table result.note }
        ensures knew { Within note.knows.known result.note.knows.known }
        ensures below { StandBelow note.knows.known note.knows.seen → StandBelow result.note.knows.known result.note.knows.seen }
    {
        ask(
            rt,
            net,
            who,
            payload,
            note,
            &mut self.wallet,
            &mut self.purse,
            txn,
            self.time,
        )
    }

    /// The payload of its debug reads, for one of them.
    pub fn take_payload(&mut self) -> Payload
        requires { IsSome self.old.payload }
        ensures state { self.new ≡ record self.old { payload = None } }
        ensures payload { self.old.payload ≡ Some result }
    {
        self.payload.take().unwrap()
    }

    /// It is back.
    pub fn put_payload(&mut self, payload: Payload)
        ensures { self.new ≡ record self.old { payload = Some payload } }
    {
        self.payload = Some(payload);
    }

    /// Tells a debug read that is next as refused, where its address has no route, and goes on in the script.
    pub fn note_read(&mut self, plan: &Plan, transfer: Transfer)
        requires next { next_of self.old.port.engine ≡ Asks transfer }
        requires kind { transfer.kind ≡ kinds.DebugRead }
        requires command { (payload_of self.old.port.engine 4096).command ≡ Read }
        requires initiator { self.old.port.engine.initiator < length plan.now.platform.initiators }
        requires room { length self.old.port.refused < self.old.room }
        ensures { (i : Initiator) → slice_get (initiators_of plan.now) self.old.port.engine.initiator ≡ Some i →
            self.new ≡ with_port self.old (port_read plan.now i self.old.port transfer) }
    {
        let routed = plan.route(self.initiator(), transfer.address).is_some();
        self.note_refusal(transfer, routed, true, Command::Read);
        self.go_past();
    }
}
