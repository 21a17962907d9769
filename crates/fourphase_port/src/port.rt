// A port: a four-phase initiator under way.
ghost use Rattle.std.specs.Prelude.{◌≡◌, ◌<◌, ◌≤◌, IfOk, Some, length, slice_get};
ghost use Rattle.tlm_model.specs.Plan.{Initiator, initiators_of};
ghost use Rattle.script_engine.specs.State.{next_of};
ghost use Rattle.port_model.specs.Ends.{IsEndOfPort};
ghost use Rattle.port_model.specs.Stages.{count_of};
ghost use Rattle.fourphase_port.specs.Fresh.{IsFresh};
ghost use Rattle.fourphase_port.specs.Pumps.{HasFinished, IsPumped, asks_for};
ghost use Rattle.port_moves.specs.State.{IsPort, begun_state, with_note};
ghost use Rattle.fourphase_port.specs.Rest.{IsAtRest};
ghost use Rattle.port_moves.specs.declared.hand.Pumped.TheVariants as Pumps;

use crate::moves::pump;
use crate::onwards::may_move;
use cargo_net::TlmLaw;
use generic_payload::Payload;
use plat_net::{Net, PlatNote, Sharing};
use port_moves::{PortState, Pumped};
use route_plan::Plan;
use script_engine::{Engine, Part};
use shared_object::Naming;
use std::alloc::Global;
use std::marker::{Model, PhantomData};
use std::sync::Wait;
use tlm_types::{EndOf, Memory};
use token_book::Wallet;

/// A four-phase initiator under way, with its note and its wallet (IEEE 1666-2011, clause 11.1.2). Contracts
/// see where its script stands, its times, what is outstanding, what had no route, and what it works on.
// The note is away only while a call is made, which carries it along.
pub struct Port<N: Naming<Plan, TlmLaw>> {
    state: PortState,
    note: Option<PlatNote>,
    of: PhantomData<N>,
}

impl<N: Naming<Plan, TlmLaw>> Model for Port<N> {
    ghost use Rattle.std.specs.Coded.{codes};
    ghost use Rattle.token_book.specs.Purse.{purse_code};
    ghost use Rattle.fourphase_port.specs.Rest.{IsAtRest, RestView};

    ghost Value = { RestView };

    ghost coded = { Prim.hlevel (codes, purse_code) };

    ghost view = { λ p. record { state = p.state; note = p.note } };

    ghost invariant = { λ p. IsAtRest N.table N.tokens N.frame (record { state = p.state; note = p.note }) };
}

// Written out, so that crates above call it and needn't prove again how each part is let go of.
impl<N: Naming<Plan, TlmLaw>> Drop for Port<N> {
    fn drop(self) {
        let Port {
            state: _state,
            note: _note,
            of: _,
        } = self;
    }
}

// Room for all that a script may have outstanding or refused.
pub(crate) fn room_for<N: Naming<Plan, TlmLaw>, S: Sharing<N>>(
    net: &Net<N, S>,
    initiator: u32,
) -> u32
    requires { initiator < length N.frame.world.platform.initiators }
    ensures { (i : Initiator) → slice_get (initiators_of N.frame.world) initiator ≡ Some i → count_of i ≤ result }
{
    2 * net.plan().script(initiator).len() as u32
}

impl<N: Naming<Plan, TlmLaw>> Port<N> {
    /// A port with its whole script before it. It makes the room for all that may be outstanding or refused,
    /// and takes no memory afterwards. Its only error is want of memory, by which what was handed in is spent.
    pub fn new<S: Sharing<N>>(
        alloc: Global,
        net: &Net<N, S>,
        engine: Engine,
        payload: Payload,
        note: PlatNote,
        wallet: Wallet,
    ) -> Result<Port<N>, Memory>
        requires fresh { IsFresh N.table N.tokens N.frame.world engine.initiator engine payload note wallet }
        ensures state { IfOk result (λ port. port.state ≡ begun_state engine payload port.room wallet) }
        ensures note { IfOk result (λ port. port.note ≡ Some note) }
    {
        let _ = net.plan().platform();
        let room = room_for(net, engine.initiator());
        let state = PortState::new(alloc, room, engine, payload, wallet)?;
        Ok(Port {
            state,
            note: Some(note),
            of: PhantomData,
        })
    }

    /// The number of the access or debug read that is next in its script, and none where another operation
    /// is next or its script has ended. It takes no memory.
    pub fn asks(&self) -> Option<u64>
        ensures { result ≡ asks_for (next_of self.now.port.engine) }
    {
        match self.state.part() {
            Part::Asks(transfer) => Some(transfer.seq),
            _ => None,
        }
    }

    /// Whether a pump may find something to do, by what the net tells. No clause speaks of it.
    pub fn may_move<S: Sharing<N>>(&self, net: &Net<N, S>) -> bool {
        may_move(&self.state, net)
    }

    /// Moves up to where a pump ends: a response that waits on its hop is taken back; else a request that was
    /// refused is tried again; else the next operation is begun or done, where nothing has to be waited for. It
    /// takes no memory. `Finished` comes once the script has ended, nothing is outstanding and no slot of the
    /// pool is live. The port stays that of its initiator.
    pub fn pump<S: Sharing<N>, R: Wait>(&mut self, rt: &R, net: &Net<N, S>) -> Pumped
        ensures pumped { IsPumped N.frame self.old self.new result }
        ensures finished { result ≡ Pumps.Finished → HasFinished self.new.state }
        ensures rest { IsAtRest N.table N.tokens N.frame self.new }
        ensures number { self.new.port.engine.initiator ≡ self.old.port.engine.initiator }
    {
        let note = self.note.take().unwrap();
        let (pumped, note) = pump(&mut self.state, rt, net, note);
        self.note = Some(note);
        pumped
    }

    /// Its note, its own wallet, and how its initiator ended, with no syncs.
    pub fn finish(self) -> (PlatNote, Wallet, EndOf)
        requires finished { HasFinished self.state }
        ensures port { IsPort N.table N.tokens N.frame (with_note self.state result.0) }
        ensures note { self.note ≡ Some result.0 }
        ensures wallet { result.1 ≡ self.wallet }
        ensures end { IsEndOfPort self.port result.2 }
    {
        let Port { state, note, of: _ } = self;
        let (wallet, end) = state.into_end();
        (note.unwrap(), wallet, end)
    }
}
