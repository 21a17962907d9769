// BEGIN_RESP with a payload on its way back.
ghost use Rattle.std.specs.Prelude.{◌≡◌};
ghost use Rattle.view_lists.specs.Lists.{Within};
ghost use Rattle.one_history.specs.Lists.{StandBelow};
ghost use Rattle.shared_object.specs.Steps.{IsNote};
ghost use Rattle.hop_object.specs.declared.call.HopCall.TheVariants.{BeginResp};
ghost use Rattle.hop_object.specs.declared.call.HopReply.TheVariants.{Responded as AnswerTo};
ghost use Rattle.cargo_net.specs.Hops.{HasAnswered};
ghost use Rattle.cargo_net.specs.Wallets.{item_given};
ghost use Rattle.cargo_net.specs.Responds.{IsResponded, MayRespond};
ghost use Rattle.cargo_net.specs.Answered.{answered_note, responded_reply, IsAnsweredAs};

use crate::law::{LockedHop, TlmLaw};
use crate::steps::step_hop;
use crate::wallets::put_back;
use cargo_model::Cargo;
use hop_object::{Hop, HopCall, HopReply, Leg, Responded};
use one_history::{History, Note};
use route_plan::Plan;
use shared_object::{Keeper, Naming, Shared};
use std::sync::Wait;
use tlm_types::{Content, Ps, TlmSync, TxnId};
use token_book::Tokens;

/// The answer of BEGIN_RESP.
pub enum Answered {
    /// The payload waits for the component upstream. The answer is that component's, at the time of the
    /// entry.
    Sent {
        answer: TlmSync,
        at: Ps,
        note: Note<Content, Plan, TlmLaw>,
    },
    /// A response is open, by this transaction. Leg and payload come back as they were.
    Busy {
        holder: TxnId,
        leg: Leg,
        cargo: Cargo,
        note: Note<Content, Plan, TlmLaw>,
    },
}

// The answer to BEGIN_RESP.
#[inline(always)]
fn responded(reply: HopReply<Cargo>) -> Responded<Cargo>
    requires { IsResponded reply }
    ensures { reply ≡ AnswerTo result }
{
    match reply {
        HopReply::Responded(answer) => answer,
        _ => unreachable!(),
    }
}

/// Makes BEGIN_RESP on a hop with a payload, by the leg of its lane and with a ticket of its own wallet
/// (IEEE 1666-2011, clause 15.2). It is tried at `at` picoseconds. `Sent` spends the ticket and hands the
/// payload to the component upstream. `Busy` comes exactly where a response is open on the hop: no entry
/// is made, and leg, payload and tickets come back. It can't fail otherwise.
#[inline(always)]
pub fn backward<R: Wait, N: Naming<Plan, TlmLaw>, L: Keeper<LockedHop<N>>>(
    hop: &Shared<Hop<Cargo>, Plan, TlmLaw, N, L>,
    rt: &R,
    history: &History<Content, Plan, TlmLaw>,
    tickets: &Tokens,
    note: Note<Content, Plan, TlmLaw>,
    leg: Leg,
    cargo: Cargo,
    at: Ps,
) -> Answered
    requires history { (history.now.table ≡ N.table) × (history.now.frame ≡ N.frame) }
    requires tickets { tickets.now ≡ N.tokens }
    requires note { IsNote N.table note }
    requires may { MayRespond N.frame N.tokens hop.now.number leg cargo at note.knows.known }
    ensures note { IsNote N.table (answered_note result) }
    ensures knew { Within note.knows.known (answered_note result).knows.known }
    ensures below { StandBelow (answered_note result).knows.known (answered_note result).knows.seen }
    ensures answer { HasAnswered N.frame N.tokens hop.now.number hop.now.own note.knows (answered_note result).knows
        (BeginResp leg at (item_given N.tokens hop.now.number cargo)) (responded_reply (item_given N.tokens hop.now.number cargo) result) }
    ensures responded { (may : MayRespond N.frame N.tokens hop.now.number leg cargo at note.knows.known) →
        IsAnsweredAs N.frame N.tokens hop.now.number leg cargo at may.pass may.hop note.knows result }
{
    let mut cargo = cargo;
    let number = hop.number();
    let ticket = cargo.baton.wallet.pull(tickets, number, 0);
    let (reply, note, ticket) = step_hop(
        hop,
        rt,
        history,
        tickets,
        note,
        Some(ticket),
        HopCall::BeginResp {
            leg,
            at,
            item: cargo,
        },
    );
    match responded(reply) {
        Responded::Sent { answer, at } => Answered::Sent { answer, at, note },
        Responded::Busy { holder, leg, item } => Answered::Busy {
            holder,
            leg,
            cargo: put_back(tickets, number, ticket, item),
            note,
        },
    }
}
