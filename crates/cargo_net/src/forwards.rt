// A payload is sent on over a hop.
ghost use Rattle.std.specs.Prelude.{◌≡◌};
ghost use Rattle.std.specs.Option.{option_map};
ghost use Rattle.view_lists.specs.Lists.{Within};
ghost use Rattle.one_history.specs.Lists.{StandBelow};
ghost use Rattle.shared_object.specs.Steps.{IsNote};
ghost use Rattle.cargo_net.specs.Forwards.{forwarded_note, HasForwarded, IsForwarded, MayForward};

use crate::law::{LockedHop, LockedMemory, TlmLaw};
use crate::requests::{Tried, begin_req};
use crate::serves::serve;
use cargo_model::Cargo;
use hop_object::{Hop, Leg};
use one_history::{History, Note};
use region_object::Region;
use route_plan::Plan;
use shared_object::{Keeper, Naming, Shared};
use std::sync::Wait;
use tlm_types::{Content, Ps, TlmSync, TxnId};
use token_book::Tokens;

/// What a payload that was to be sent on has come to.
pub enum Forwarded {
    /// The payload waits for the component downstream. The answer is that component's, at the time of the
    /// entry.
    Left {
        answer: TlmSync,
        at: Ps,
        note: Note<Content, Plan, TlmLaw>,
    },
    /// The response came by return: the memory's access was made at the time of the entry, and the
    /// response is due after the memory's latency. The leg is that of END_RESP, where it is owed.
    Now {
        answer: TlmSync,
        at: Ps,
        due: Ps,
        leg: Option<Leg>,
        cargo: Cargo,
        note: Note<Content, Plan, TlmLaw>,
    },
    /// A request is open, by this transaction, or no lane is free of so many that are in use. The payload
    /// comes back as it was.
    Busy {
        holder: Option<TxnId>,
        live: u32,
        cargo: Cargo,
        note: Note<Content, Plan, TlmLaw>,
    },
}

/// Makes BEGIN_REQ on a hop with a payload, with a ticket of its own wallet (IEEE 1666-2011, clause 15.2).
/// It is tried at `at` picoseconds. The hop leads to `memory` or, without one, to a router; `latency`, in
/// picoseconds, is that of this component. Where a memory gives the response with its answer, its access is
/// made in this call, after the hop's step; a router never answers so. `Busy` comes exactly where a request
/// is open on the hop or no lane is free: no entry is made, and payload and tickets come back. It can't
/// fail otherwise.
#[inline(always)]
pub fn forward<
    R: Wait,
    N: Naming<Plan, TlmLaw>,
    L: Keeper<LockedHop<N>>,
    M: Keeper<LockedMemory<N>>,
>(
    hop: &Shared<Hop<Cargo>, Plan, TlmLaw, N, L>,
    memory: Option<&Shared<Region, Plan, TlmLaw, N, M>>,
    latency: Ps,
    rt: &R,
    history: &History<Content, Plan, TlmLaw>,
    tickets: &Tokens,
    note: Note<Content, Plan, TlmLaw>,
    cargo: Cargo,
    at: Ps,
) -> Forwarded
    requires history { (history.now.table ≡ N.table) × (history.now.frame ≡ N.frame) }
    requires tickets { tickets.now ≡ N.tokens }
    requires note { IsNote N.table note }
    requires may { MayForward N.frame N.tokens hop.now.number (option_map (λ m. m.now.number) memory) latency cargo at note.knows.known }
    ensures note { IsNote N.table (forwarded_note result) }
    ensures knew { Within note.knows.known (forwarded_note result).knows.known }
    ensures below { StandBelow (forwarded_note result).knows.known (forwarded_note result).knows.seen }
    ensures answer { HasForwarded N.frame N.tokens hop.now.number hop.now.own cargo at note.knows (forwarded_note result).knows result }
    ensures forwarded { (may : MayForward N.frame N.tokens hop.now.number (option_map (λ m. m.now.number) memory.entry) latency cargo at note.knows.known) →
        IsForwarded N.frame N.tokens hop.now.number (option_map (λ m. m.now.number) memory.entry) latency cargo at may.begins.pass may.begins.hop note.knows result }
{
    match begin_req(hop, rt, history, tickets, note, cargo, at) {
        Tried::Left { answer, at, note } => Forwarded::Left { answer, at, note },
        Tried::Now {
            answer,
            at,
            leg,
            cargo,
            note,
        } => {
            let Some(memory) = memory else { unreachable!() };
            let (cargo, note) = serve(memory, rt, history, tickets, note, cargo, at);
            Forwarded::Now {
                answer,
                at,
                due: at.saturating_add(latency),
                leg,
                cargo,
                note,
            }
        }
        Tried::Busy {
            holder,
            live,
            cargo,
            note,
        } => Forwarded::Busy {
            holder,
            live,
            cargo,
            note,
        },
    }
}
