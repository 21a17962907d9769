// The use of a grant.
ghost use Rattle.std.specs.Prelude.{◌≡◌, ℕ, ◌<◌, IsSomeAnd, IsTrue, length, slice_get};
ghost use Rattle.std.specs.Option.{ForSome};
ghost use Rattle.view_lists.specs.Lists.{Has, Within};
ghost use Rattle.one_history.specs.Gates.{IsRevoked};
ghost use Rattle.one_history.specs.Lists.{StandBelow};
ghost use Rattle.shared_object.specs.Steps.{IsInside, IsNote};
ghost use Rattle.token_book.specs.Purse.{IsOf};
ghost use Rattle.plat_net.specs.Calls.{HasNoPassage};
ghost use Rattle.shared_object.specs.Written.{written_at};
ghost use Rattle.dmi_grants.specs.Made.{IsRoomyFor, is_given_in};
ghost use Rattle.dmi_grants.specs.Using.{HasGoneThrough, HasUsed, IsCutIn, MayUse, note_of};

use crate::made::{Made, least_open, make_inside};
use crate::table::{GrantTable, Held};
use generic_payload::Payload;
use one_history::Entered;
use plat_net::{Net, PlatNote, Sharing, TlmLaw};
use region_object::{RegionCall, RegionReply, direct_accesses_are_ok, payload_cost};
use route_plan::Plan;
use shared_object::Naming;
use std::sync::Wait;
use tlm_types::{Ps, TxnId};
use token_book::Wallet;

/// What the use of a grant answers.
#[derive(Drop)]
pub enum UseOf {
    /// The access was made: it is one entry, at the time that was handed in, in picoseconds.
    Used {
        payload: Payload,
        note: PlatNote,
        at: Ps,
    },
    /// The grant was overlapped by an invalidation, which the note knows, and is dropped. The payload is as
    /// it was.
    Stale {
        payload: Payload,
        note: PlatNote,
    },
}

impl GrantTable {
    /// Makes a direct access through the gate of the grant at this index, which covers the payload by
    /// address, length and kind (clause 11.2). The payload is plain, and a read has a buffer of zeros. The
    /// access takes the latency of the whole way; the time `at`, in picoseconds, is that of its entry.
    pub fn use_grant<N: Naming<Plan, TlmLaw>, S: Sharing<N>, R: Wait>(
        &mut self,
        net: &Net<N, S>,
        rt: &R,
        which: u32,
        payload: Payload,
        mut note: PlatNote,
        wallet: &mut Wallet,
        txn: TxnId,
        at: Ps,
    ) -> UseOf
        requires held { IsSomeAnd (slice_get self.old.held which) (MayUse N.frame payload note.knows wallet.old) }
        requires note { IsNote N.table note }
        requires wallet { IsOf N.tokens wallet.old }
        requires passage { HasNoPassage N.frame.world txn }

        // An access through the gate, with its ticket spent; or an invalidation after the grant that
        // overlaps it is known, and the grant is held no more.
        ensures used { ForSome (slice_get self.old.held which) (λ held.
            HasUsed N.frame held which payload txn at self.old self.new note.knows wallet.old wallet.new result) }

        // What comes back.
        ensures note { IsNote N.table (note_of result) }
        ensures wallet { IsOf N.tokens wallet.new }
        ensures room { (m : ℕ) → IsRoomyFor m wallet.old → IsRoomyFor m wallet.new }
    {
        let held = self.at(which);
        match net.history().enter(&mut note, held.gate) {
            Entered::Inside => go_direct(net, rt, held, payload, note, wallet, txn, at),
            Entered::Marked => {
                self.drop_stale(which);
                let note = learn(net, rt, held.memory, held.gate, note);
                UseOf::Stale { payload, note }
            }
        }
    }
}

// Makes the access of a note that is inside the grant's gate, and leaves the gate.
fn go_direct<N: Naming<Plan, TlmLaw>, S: Sharing<N>, R: Wait>(
    net: &Net<N, S>,
    rt: &R,
    held: Held,
    mut payload: Payload,
    note: PlatNote,
    wallet: &mut Wallet,
    txn: TxnId,
    at: Ps,
) -> UseOf
    requires may { MayUse N.frame payload note.knows wallet.old held }
    requires note { IsInside N.table held.gate note }
    requires wallet { IsOf N.tokens wallet.old }
    requires passage { HasNoPassage N.frame.world txn }
    ensures used { HasGoneThrough N.frame held payload txn at note.knows wallet.old wallet.new result }
    ensures note { IsNote N.table (note_of result) }
    ensures wallet { IsOf N.tokens wallet.new }
    ensures room { (m : ℕ) → IsRoomyFor m wallet.old → IsRoomyFor m wallet.new }
{
    let _ = net.plan().platform();
    let bytes = payload_cost(&payload);
    let ticket = wallet.pull(net.tickets(), held.memory, bytes);
    payload.set_address(held.base + (payload.address() - held.low));
    let call = RegionCall::Direct {
        gate: held.gate,
        txn,
        time: at,
        payload,
    };
    let Made {
        reply,
        position: _,
        note,
        ticket: _,
    } = make_inside(net, rt, held.memory, held.gate, note, ticket, call);
    direct_accesses_are_ok();
    match reply {
        RegionReply::Direct { payload } => UseOf::Used { payload, note, at },
        _ => unreachable!(),
    }
}

// A look at the memory's log, by a question that adds no entry, with a note to which a gate of it is void: it
// comes back knowing the gate's grant and an overlapping invalidation after it.
fn learn<N: Naming<Plan, TlmLaw>, S: Sharing<N>, R: Wait>(
    net: &Net<N, S>,
    rt: &R,
    memory: u32,
    gate: u32,
    note: PlatNote,
) -> PlatNote
    requires memory { memory < length N.frame.world.platform.memories }
    requires note { IsNote N.table note }
    requires void { Has note.knows.void gate }
    requires granted { IsTrue (is_given_in (written_at memory note.knows.known) gate) }
    ensures note { IsNote N.table result }
    ensures keeps { Within note.knows.known result.knows.known }
    ensures revoked { IsRevoked result.knows.known gate }
    ensures cut { IsCutIn (written_at memory result.knows.known) gate }
    ensures below { StandBelow result.knows.known result.knows.seen }
{
    let (_, note) = least_open(net, rt, memory, 0, 0, 0, note);
    note
}
