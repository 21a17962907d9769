// What a port does where it takes an access.
ghost use Rattle.std.specs.Prelude.{◌≡◌, ℕ, ◌<◌, ◌≤◌, ◌⊎◌, [], ◌∷◌, ◌++◌, true, false, is_some, length, Some, slice_get};
ghost use Rattle.view_lists.specs.Lists.{Has};
ghost use Rattle.token_book.specs.Account.{amount_of};
ghost use Rattle.token_book.specs.Purse.{HasPlace, HasRoom, IsOf, empty_purse, left_of};
ghost use Rattle.token_book.specs.Ticket.{IsTicket};
ghost use Rattle.cargo_model.specs.Tickets.{Pulls};
ghost use Rattle.tlm_model.specs.Plan as model;
ghost use Rattle.tlm_model.specs.Plan.{Initiator, initiators_of};
ghost use Rattle.region_object.specs.Call.{payload_cost};
ghost use Rattle.script_engine.specs.declared.part.Part.TheVariants.{Asks};
ghost use Rattle.script_engine.specs.Part.{is_debug_kind, is_fenced_kind};
ghost use Rattle.script_engine.specs.State.{is_fenced, next_of, op_of, passed_by, payload_of};
ghost use Rattle.plat_net.specs.Calls.{route_at};
ghost use Rattle.port_model.specs.Laws.{next_request, refused_for};
ghost use Rattle.port_moves.specs.Loaded.{IsAccessOf, IsLoaded};
ghost use Rattle.port_moves.specs.Moves.{port_taken};
ghost use Rattle.port_moves.specs.Returned.{with_away, with_port};
ghost use Rattle.port_moves.specs.Stocks.{HasPaid, IsStocked, MayStock};
ghost use Rattle.port_moves.specs.Wallets.{Gets};

use crate::hand::Hand;
use crate::state::PortState;
use crate::stock::stock;
use crate::wallets::put_back;
use cargo_net::TlmLaw;
use generic_payload::Payload;
use payload_pool::Baton;
use plat_net::{Net, Sharing};
use route_plan::Plan;
use script_engine::{Transfer, TransferKind};
use shared_object::Naming;
use tlm_types::{Command, RefusedItem};
use token_book::{Ticket, Tokens, Wallet};

// Whether the engine waits for the reply to a transfer.
fn is_fenced(transfer: Transfer) -> bool
    ensures { result ≡ is_fenced_kind transfer.kind }
{
    match transfer.kind {
        TransferKind::Access { fenced, .. } => fenced,
        TransferKind::DebugRead => false,
    }
}

impl PortState {
    /// Pulls a ticket of an object out of the port's wallet, for no bytes.
    #[tactic(auto, using(crate::proofs::WalletLemmas::pulled_in, cargo_net::proofs::PayloadWallets::from_pull))]
    pub fn pull(&mut self, tickets: &Tokens, object: u32) -> Ticket
        requires of { IsOf tickets.now self.old.wallet }
        requires left { 0 < left_of self.old.wallet object }
        ensures state { self.new ≡ (let wallet = self.new.wallet in record self.old { wallet = wallet }) }
        ensures pulls { Pulls tickets.now object 0 self.old.wallet self.new.wallet }
        ensures within { (o : ℕ) → HasPlace self.new.wallet o → HasPlace self.old.wallet o }
        ensures ticket { IsTicket tickets.now object result }
        ensures amount { amount_of result.bytes ≡ 0 }
    {
        self.wallet.pull(tickets, object, 0)
    }

    /// Puts a ticket of this object back that wasn't spent.
    pub fn put_ticket(&mut self, tickets: &Tokens, object: u32, ticket: Ticket)
        requires of { IsOf tickets.now self.old.wallet }
        requires ticket { IsTicket tickets.now object ticket × HasRoom self.old.wallet object × (amount_of ticket.bytes ≡ 0) }
        ensures state { self.new ≡ (let wallet = self.new.wallet in record self.old { wallet = wallet }) }
        ensures back { Gets tickets.now object 1 0 self.old.wallet self.new.wallet }
        ensures within { (o : ℕ) → HasPlace self.new.wallet o → HasPlace self.old.wallet o ⊎ (o ≡ object) }
    {
        put_back(tickets, &mut self.wallet, object, ticket);
    }

    // One more access is outstanding.
    pub(crate) fn note_away(&mut self, number: u64)
        requires new { Has self.old.port.away number → ⊥ }
        requires room { length self.old.port.away < self.old.room }
        ensures { self.new ≡ with_away self.old (number ∷ self.old.port.away) }
    {
        self.away.insert(number);
    }

    // The engine waits for the access that is next.
    pub(crate) fn wait_for_it(&mut self)
        ensures { self.new ≡ (let port = self.old.port in with_port self.old (record port { waiting = true })) }
    {
        self.waiting = true;
    }

    /// The engine passes what is next.
    pub fn go_past(&mut self)
        requires { is_fenced (op_of self.old.port.engine) ≡ false }
        ensures { self.new ≡ (let port = self.old.port in with_port self.old (record port { engine = passed_by port.engine })) }
    {
        self.engine.passed();
    }

    /// Fills a payload for the access that is next.
    pub fn fill(&self, payload: &mut Payload)
        requires { 4096 ≤ payload.old.room }
        ensures { payload.new ≡ payload_of self.now.port.engine payload.old.room }
    {
        self.engine.fill(payload);
    }

    // Moves the tickets of the access that is next out of its wallet into that of the payload. Answers whether it has a route.
    pub(crate) fn give<N: Naming<Plan, TlmLaw>, S: Sharing<N>>(
        &mut self,
        net: &Net<N, S>,
        initiator: u32,
        address: u64,
        payload: &Payload,
        to: &mut Wallet,
    ) -> bool
        requires initiator { initiator < length N.frame.world.platform.initiators }
        requires tables { IsOf N.tokens self.old.wallet × IsOf N.tokens to.old }
        requires empty { to.old ≡ empty_purse 12 }
        requires may { MayStock N.frame.world initiator address (payload_cost payload.now) self.old.wallet }
        ensures state { self.new ≡ (let wallet = self.new.wallet in record self.old { wallet = wallet }) }
        ensures paid { HasPaid N.tokens N.frame.world initiator address (payload_cost payload.now) self.old.wallet self.new.wallet }
        ensures stocked { IsStocked N.tokens N.frame.world initiator address (payload_cost payload.now) to.new }
        ensures routed { result ≡ is_some (route_at N.frame.world initiator address) }
    {
        stock(net, initiator, address, payload, &mut self.wallet, to)
    }

    // Tells a transfer that is next as refused, unless its address has a route.
    pub(crate) fn note_refusal(
        &mut self,
        transfer: Transfer,
        routed: bool,
        debug: bool,
        command: Command,
    )
        requires next { next_of self.old.port.engine ≡ Asks transfer }
        requires debug { debug ≡ is_debug_kind transfer.kind }
        requires command { command ≡ (payload_of self.old.port.engine 4096).command }
        requires room { length self.old.port.refused < self.old.room }
        ensures keeps { self.new ≡ (let port = self.old.port in with_port self.old (record port { refused = self.new.port.refused })) }
        ensures told { (p : model.Plan) (i : Initiator) → slice_get (initiators_of p) self.old.port.engine.initiator ≡ Some i → routed ≡ is_some (route_at p self.old.port.engine.initiator transfer.address) →
            self.new ≡ (let port = self.old.port in with_port self.old (record port { refused = port.refused ++ refused_for p i (next_request port transfer) port.time })) }
    {
        if !routed {
            self.refuse(transfer, debug, command);
        }
    }

    // Tells a transfer as refused at the current time.
    fn refuse(&mut self, transfer: Transfer, debug: bool, command: Command)
        requires { length self.old.port.refused < self.old.room }
        ensures { self.new ≡ (let port = self.old.port in with_port self.old (record port { refused = port.refused ++ (record { seq = transfer.seq; time = port.time; debug = debug; command = command; address = transfer.address }) ∷ [] })) }
    {
        self.refused.push(RefusedItem {
            seq: transfer.seq,
            time: self.time,
            debug,
            command,
            address: transfer.address,
        });
    }

    // Notes the access that is next as outstanding, and as refused unless its address has a route, and goes
    // on in the script, or waits where the access is fenced.
    pub(crate) fn note_taken(&mut self, transfer: Transfer, routed: bool, command: Command)
        requires next { next_of self.old.port.engine ≡ Asks transfer }
        requires access { IsAccessOf transfer.kind }
        requires command { command ≡ (payload_of self.old.port.engine 4096).command }
        requires new { Has self.old.port.away self.old.port.engine.seq → ⊥ }
        requires room { (length self.old.port.away < self.old.room) × (length self.old.port.refused < self.old.room) }
        ensures { (p : model.Plan) (i : Initiator) → slice_get (initiators_of p) self.old.port.engine.initiator ≡ Some i → routed ≡ is_some (route_at p self.old.port.engine.initiator transfer.address) →
            self.new ≡ with_port self.old (port_taken p i self.old.port transfer (is_fenced_kind transfer.kind)) }
    {
        self.note_refusal(transfer, routed, false, command);
        self.note_away(transfer.seq);
        if is_fenced(transfer) {
            self.wait_for_it();
        } else {
            self.go_past();
        }
    }

    /// Fills a payload that was taken for the access that is next, with the tickets of the access, works on it, and goes on
    /// in the script, or waits where the access is fenced. Without a route it is noted as refused.
    pub fn load<N: Naming<Plan, TlmLaw>, S: Sharing<N>>(
        &mut self,
        net: &Net<N, S>,
        transfer: Transfer,
        baton: Baton,
    )
        requires next { next_of self.old.port.engine ≡ Asks transfer }
        requires access { IsAccessOf transfer.kind }
        requires initiator { self.old.port.engine.initiator < length N.frame.world.platform.initiators }
        requires new { Has self.old.port.away self.old.port.engine.seq → ⊥ }
        requires room { (length self.old.port.away < self.old.room) × (length self.old.port.refused < self.old.room) }
        requires baton { (baton.payload.room ≡ 4096) × (baton.wallet ≡ empty_purse 12) }
        requires tokens { IsOf N.tokens self.old.wallet × IsOf N.tokens baton.wallet }
        requires may { MayStock N.frame.world self.old.port.engine.initiator transfer.address (payload_cost (payload_of self.old.port.engine 4096)) self.old.wallet }
        ensures { IsLoaded N.tokens N.frame.world transfer baton self.old self.new }
    {
        let mut baton = baton;
        self.fill(&mut baton.payload);
        let initiator = self.engine.initiator();
        let routed = self.give(
            net,
            initiator,
            transfer.address,
            &baton.payload,
            &mut baton.wallet,
        );
        self.note_taken(transfer, routed, baton.payload.command());
        self.turn_to(Hand::Taken(baton));
    }
}
