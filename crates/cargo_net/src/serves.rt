// The access of a request at its memory.
ghost use Rattle.std.specs.Prelude.{◌≡◌, [], ◌∷◌, ◌++◌};
ghost use Rattle.view_lists.specs.Lists.{Within};
ghost use Rattle.one_history.specs.Lists.{StandBelow};
ghost use Rattle.shared_object.specs.Steps.{IsNote};
ghost use Rattle.region_object.specs.declared.call.RegionReply.TheVariants.{Accessed};
ghost use Rattle.cargo_net.specs.Memories.{HasServedCall, IsAccessReply};
ghost use Rattle.cargo_net.specs.Serves.{access_call, HasServed, MayServe};

use crate::law::{LockedMemory, TlmLaw};
use cargo_model::Cargo;
use generic_payload::Payload;
use one_history::{History, Note};
use region_object::{Region, RegionCall, RegionReply, payload_cost};
use route_plan::Plan;
use shared_object::{Keeper, Naming, Shared, Stepped};
use std::sync::Wait;
use tlm_types::{Content, Ps, Way};
use token_book::Tokens;

// The payload that a memory hands back.
fn accessed(reply: RegionReply) -> Payload
    requires { IsAccessReply reply }
    ensures { reply ≡ Accessed result }
{
    match reply {
        RegionReply::Accessed { payload } => payload,
        _ => unreachable!(),
    }
}

/// Makes the access of a request at its memory, with a ticket of the payload's own wallet, for its bytes
/// (IEEE 1666-2011, clause 14). Its entry has the time `at`, in picoseconds, of the BEGIN_REQ on the hop
/// to the memory. The payload comes back with its status and, of a read, its bytes. It can't fail.
pub fn serve<R: Wait, N: Naming<Plan, TlmLaw>, L: Keeper<LockedMemory<N>>>(
    memory: &Shared<Region, Plan, TlmLaw, N, L>,
    rt: &R,
    history: &History<Content, Plan, TlmLaw>,
    tickets: &Tokens,
    note: Note<Content, Plan, TlmLaw>,
    cargo: Cargo,
    at: Ps,
) -> (Cargo, Note<Content, Plan, TlmLaw>)
    requires history { (history.now.table ≡ N.table) × (history.now.frame ≡ N.frame) }
    requires tickets { tickets.now ≡ N.tokens }
    requires note { IsNote N.table note }
    requires may { MayServe N.frame N.tokens memory.now.number cargo at note.knows.known }
    ensures note { IsNote N.table result.1 }
    ensures knew { Within note.knows.known result.1.knows.known }
    ensures below { StandBelow result.1.knows.known result.1.knows.seen }
    ensures look { result.1.knows.looks ≡ note.knows.looks ++ (memory.now.number, 0) ∷ [] }
    ensures answer { HasServedCall N.frame N.tokens memory.now.number memory.now.own note.knows result.1.knows
        (access_call cargo at) (Accessed result.0.baton.payload) }
    ensures served { (may : MayServe N.frame N.tokens memory.now.number cargo at note.knows.known) →
        HasServed N.frame N.tokens memory.now.number cargo at may.pass may.hop may.fetched.down.asked.access may.route result.0 result.1.knows.known }
{
    let Cargo { mut baton, hold } = cargo;
    let txn = baton.txn();
    let bytes = payload_cost(&baton.payload);
    let ticket = baton.wallet.pull(tickets, memory.number(), bytes);
    let call = RegionCall::Access {
        txn,
        time: at,
        way: Way::FourPhase,
        payload: baton.payload,
    };
    let stepped = memory.step(rt, history, tickets, note, Some(ticket), call);
    let Stepped {
        reply,
        position: _,
        note,
        ticket: _,
    } = stepped;

    baton.payload = accessed(reply);
    (Cargo { baton, hold }, note)
}
