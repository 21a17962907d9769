// BEGIN_REQ with a payload on its way.
ghost use Rattle.std.specs.Prelude.{◌≡◌};
ghost use Rattle.view_lists.specs.Lists.{Within};
ghost use Rattle.one_history.specs.Lists.{StandBelow};
ghost use Rattle.shared_object.specs.Steps.{IsNote};
ghost use Rattle.hop_object.specs.declared.call.HopCall.TheVariants.{BeginReq};
ghost use Rattle.hop_object.specs.declared.call.HopReply.TheVariants.{Begun as AnswerTo};
ghost use Rattle.cargo_net.specs.Hops.{HasAnswered};
ghost use Rattle.cargo_net.specs.Wallets.{item_given};
ghost use Rattle.cargo_net.specs.Begins.{IsBegunReply, MayBegin};
ghost use Rattle.cargo_net.specs.Tried.{begun_reply, tried_note, IsTried};

use crate::law::{LockedHop, TlmLaw};
use crate::steps::step_hop;
use crate::wallets::put_back;
use cargo_model::Cargo;
use hop_object::{Begun, Hop, HopCall, HopReply, Leg};
use one_history::{History, Note};
use route_plan::Plan;
use shared_object::{Keeper, Naming, Shared};
use std::sync::Wait;
use tlm_types::{Content, Ps, TlmSync, TxnId};
use token_book::Tokens;

/// The answer of BEGIN_REQ.
pub enum Tried {
    /// The payload waits for the component downstream. The answer is that component's, at the time of the
    /// entry.
    Left {
        answer: TlmSync,
        at: Ps,
        note: Note<Content, Plan, TlmLaw>,
    },
    /// The response comes by return: the payload is to be served at the time of the entry. The leg is that
    /// of END_RESP, where it is owed.
    Now {
        answer: TlmSync,
        at: Ps,
        leg: Option<Leg>,
        cargo: Cargo,
        note: Note<Content, Plan, TlmLaw>,
    },
    /// A request is open, by this transaction, or no lane is free of so many that are in use. The payload
    /// comes back as it was.
    Busy {
        holder: Option<TxnId>,
        live: u32,
        cargo: Cargo,
        note: Note<Content, Plan, TlmLaw>,
    },
}

// The answer to BEGIN_REQ.
#[inline(always)]
fn begun_answer(reply: HopReply<Cargo>) -> Begun<Cargo>
    requires { IsBegunReply reply }
    ensures { reply ≡ AnswerTo result }
{
    match reply {
        HopReply::Begun(answer) => answer,
        _ => unreachable!(),
    }
}

/// Makes BEGIN_REQ on a hop with a payload, with a ticket of its own wallet (IEEE 1666-2011, clause 15.2).
/// It is tried at `at` picoseconds. `Left` and `Now` spend the ticket. `Busy` comes exactly where a request
/// is open on the hop or no lane is free: no entry is made, and payload and tickets come back. It can't fail
/// otherwise.
#[inline(always)]
pub fn begin_req<R: Wait, N: Naming<Plan, TlmLaw>, L: Keeper<LockedHop<N>>>(
    hop: &Shared<Hop<Cargo>, Plan, TlmLaw, N, L>,
    rt: &R,
    history: &History<Content, Plan, TlmLaw>,
    tickets: &Tokens,
    note: Note<Content, Plan, TlmLaw>,
    cargo: Cargo,
    at: Ps,
) -> Tried
    requires history { (history.now.table ≡ N.table) × (history.now.frame ≡ N.frame) }
    requires tickets { tickets.now ≡ N.tokens }
    requires note { IsNote N.table note }
    requires may { MayBegin N.frame N.tokens hop.now.number cargo at note.knows.known }
    ensures note { IsNote N.table (tried_note result) }
    ensures knew { Within note.knows.known (tried_note result).knows.known }
    ensures below { StandBelow (tried_note result).knows.known (tried_note result).knows.seen }
    ensures answer { HasAnswered N.frame N.tokens hop.now.number hop.now.own note.knows (tried_note result).knows
        (BeginReq cargo.baton.txn at (item_given N.tokens hop.now.number cargo)) (begun_reply (item_given N.tokens hop.now.number cargo) result) }
    ensures tried { (may : MayBegin N.frame N.tokens hop.now.number cargo at note.knows.known) →
        IsTried N.frame N.tokens hop.now.number cargo at may.pass may.hop note.knows result }
{
    let mut cargo = cargo;
    let number = hop.number();
    let ticket = cargo.baton.wallet.pull(tickets, number, 0);
    let txn = cargo.baton.txn();
    let (reply, note, ticket) = step_hop(
        hop,
        rt,
        history,
        tickets,
        note,
        Some(ticket),
        HopCall::BeginReq {
            txn,
            at,
            item: cargo,
        },
    );
    match begun_answer(reply) {
        Begun::Left { answer, at } => Tried::Left { answer, at, note },
        Begun::Now {
            answer,
            at,
            leg,
            item,
        } => Tried::Now {
            answer,
            at,
            leg,
            cargo: item,
            note,
        },
        Begun::Busy { holder, live, item } => Tried::Busy {
            holder,
            live,
            cargo: put_back(tickets, number, ticket, item),
            note,
        },
    }
}
