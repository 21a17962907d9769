// The accesses of a blocking or direct initiator.
ghost use Rattle.std.specs.Prelude.{◌≡◌, ◌&&◌, true, IsSomeAnd, IsTrue, position, slice_get, None};
ghost use Rattle.shared_object.specs.Steps.{IsNote};
ghost use Rattle.token_book.specs.Purse.{IsOf};
ghost use Rattle.script_engine.specs.Part.{command_in, is_plain_kind};
ghost use Rattle.dmi_grants.specs.Table.{covers};
ghost use Rattle.initiator_run.specs.Moves.{HasReached};
ghost use Rattle.decoupled_run.specs.Job.{IsAtEase, IsJob, goes_direct};
ghost use Rattle.decoupled_run.specs.Moves.{ComesOf, DropsOne, HasMadeNext, IsLeft, IsToMake};

use crate::send::send;
use dmi_grants::{GrantTable, UseOf};
use generic_payload::Payload;
use initiator_run::{InitiatorRun, NextAccess};
use plat_net::{Carried, Net, PlatNote, Reach, Sharing, TlmLaw};
use route_plan::Plan;
use script_engine::{Transfer, TransferKind};
use shared_object::Naming;
use std::sync::Wait;
use tlm_types::{Command, Ps, TxnId};
use token_book::Wallet;

/// What comes back from an access or a debug read, and whether a grant is to be asked for.
#[derive(Drop)]
pub(crate) struct MadeNext {
    pub payload: Payload,
    pub note: PlatNote,
    pub wants: bool,
}

// Whether an access is plain.
fn is_plain(kind: TransferKind) -> bool
    ensures { result ≡ is_plain_kind kind }
{
    matches!(kind, TransferKind::Access { plain: true, .. })
}

/// The command of a transfer: a debug read reads.
pub(crate) fn command_of(kind: TransferKind) -> Command
    ensures { result ≡ command_in kind }
{
    match kind {
        TransferKind::Access { command, .. } => command,
        TransferKind::DebugRead => Command::Read,
    }
}

// Whether a grant is to be asked for after an access whose payload came back.
fn wants_grant(is_direct: bool, kind: TransferKind, payload: &Payload) -> bool
    ensures { result ≡ ((is_direct && is_plain_kind kind) && payload.now.hint) }
{
    is_direct && is_plain(kind) && payload.hint()
}

// Makes the access or the debug read that is next by transport. No grant that is held covers it, or it isn't
// plain.
#[inline(always)]
fn transport<N: Naming<Plan, TlmLaw>, S: Sharing<N>, B: Reach<N, S>, R: Wait>(
    reach: &mut B,
    rt: &R,
    run: &InitiatorRun,
    next: &NextAccess,
    is_direct: bool,
    grants: &GrantTable,
    payload: Payload,
    note: PlatNote,
    wallet: &mut Wallet,
) -> MadeNext
    requires ready { IsToMake N.table N.tokens N.frame run.now next.now.transfer next.now.route payload note wallet.old grants.now }
    requires styled { is_direct ≡ goes_direct N.frame.world run.now.engine.initiator }
    requires none { let x = next.now.transfer in is_plain_kind x.kind ≡ true → position (covers x.address x.length (command_in x.kind)) grants.now.held ≡ None }
    ensures { HasMadeNext N.table N.tokens N.frame note.knows.known run.now next.now.transfer next.now.route result.wants result.payload result.note wallet.new grants.now }
{
    let who = run.initiator();
    let txn = run.next_txn();
    let at = run.current();
    let sent = send(reach, rt, who, next, payload, note, wallet, txn, at);
    let Carried {
        payload,
        note,
        at: _,
    } = sent;
    let wants = wants_grant(is_direct, next.transfer.kind, &payload);
    MadeNext {
        payload,
        note,
        wants,
    }
}

// Makes the access that is next by the grant at this index, which covers it, or drops the grant, which is
// stale.
fn use_held<N: Naming<Plan, TlmLaw>, S: Sharing<N>, R: Wait>(
    net: &Net<N, S>,
    rt: &R,
    run: &InitiatorRun,
    next: &NextAccess,
    which: u32,
    grants: &mut GrantTable,
    payload: Payload,
    note: PlatNote,
    wallet: &mut Wallet,
) -> UseOf
    requires ready { IsToMake N.table N.tokens N.frame run.now next.now.transfer next.now.route payload note wallet.old grants.old }
    requires plain { is_plain_kind next.now.transfer.kind ≡ true }
    requires which { let x = next.now.transfer in IsSomeAnd (slice_get grants.old.held which) (λ h. IsTrue (covers x.address x.length (command_in x.kind) h)) }
    ensures comes { ComesOf N.table N.tokens N.frame note.knows.known run.now next.now.transfer next.now.route wallet.new grants.new result }
    ensures fewer { DropsOne grants.old grants.new result }
{
    let txn = run.next_txn();
    let at = run.current();
    grants.use_grant(net, rt, which, payload, note, wallet, txn, at)
}

// Makes the plain access that is next: by the first grant that covers it and isn't stale, or by transport.
fn make_plain<N: Naming<Plan, TlmLaw>, S: Sharing<N>, B: Reach<N, S>, R: Wait>(
    reach: &mut B,
    rt: &R,
    run: &InitiatorRun,
    next: NextAccess,
    grants: &mut GrantTable,
    mut payload: Payload,
    mut note: PlatNote,
    wallet: &mut Wallet,
) -> MadeNext
    requires ready { IsToMake N.table N.tokens N.frame run.now next.transfer next.route payload note wallet.old grants.old }
    requires plain { is_plain_kind next.transfer.kind ≡ true }
    requires direct { goes_direct N.frame.world run.now.engine.initiator ≡ true }
    ensures { HasMadeNext N.table N.tokens N.frame note.knows.known run.now next.transfer next.route result.wants result.payload result.note wallet.new grants.new }
{
    let Transfer {
        seq: _,
        address,
        length,
        kind,
    } = next.transfer;
    while let Some(which) = grants.find(address, length, command_of(kind)) {
        match use_held(
            reach.net(),
            rt,
            run,
            &next,
            which,
            grants,
            payload,
            note,
            wallet,
        ) {
            UseOf::Used {
                payload,
                note,
                at: _,
            } => {
                return MadeNext {
                    payload,
                    note,
                    wants: false,
                };
            }
            UseOf::Stale {
                payload: same,
                note: knowing,
            } => {
                payload = same;
                note = knowing;
            }
        }
    }
    transport(reach, rt, run, &next, true, grants, payload, note, wallet)
}

/// Makes the access or the debug read that is next, which has a route: a plain access of a direct initiator by a grant
/// where one is held that covers it and isn't stale, and anything else by transport. It answers whether a grant is to be
/// asked for.
// Where this is inlined, the fields of `next` stay in registers: nothing is handed its address.
#[inline(always)]
pub(crate) fn make_next<N: Naming<Plan, TlmLaw>, S: Sharing<N>, B: Reach<N, S>, R: Wait>(
    reach: &mut B,
    rt: &R,
    run: &InitiatorRun,
    next: &NextAccess,
    is_direct: bool,
    grants: &mut GrantTable,
    mut payload: Payload,
    note: PlatNote,
    wallet: &mut Wallet,
) -> MadeNext
    requires job { IsJob N.table N.tokens N.frame is_direct run.now payload note wallet.old grants.old }
    requires reached { HasReached N.frame.world run.now next.now.transfer next.now.route }
    ensures { HasMadeNext N.table N.tokens N.frame note.knows.known run.now next.now.transfer next.now.route result.wants result.payload result.note wallet.new grants.new }
{
    run.fill_next(&mut payload);
    if is_direct && is_plain(next.transfer.kind) {
        let next = NextAccess {
            transfer: next.transfer,
            route: next.route,
        };
        make_plain(reach, rt, run, next, grants, payload, note, wallet)
    } else {
        transport(
            reach, rt, run, next, is_direct, grants, payload, note, wallet,
        )
    }
}

/// Asks for a grant right after an access that wants one.
#[inline(always)]
pub(crate) fn ask_after<N: Naming<Plan, TlmLaw>, S: Sharing<N>, R: Wait>(
    net: &Net<N, S>,
    rt: &R,
    run: &InitiatorRun,
    next: &NextAccess,
    wants: bool,
    grants: &mut GrantTable,
    note: PlatNote,
    wallet: &mut Wallet,
    txn: TxnId,
    at: Ps,
) -> PlatNote
    requires note { IsNote N.table note }
    requires wallet { IsOf N.tokens wallet.old }
    requires left { IsLeft wants N.frame next.now.transfer next.now.route txn at run.now note.knows wallet.old grants.old }
    ensures note { IsNote N.table result }
    ensures wallet { IsOf N.tokens wallet.new }
    ensures ease { IsAtEase N.frame run.now result.knows wallet.new grants.new }
{
    if !wants {
        return note;
    }
    let who = run.initiator();
    let command = command_of(next.transfer.kind);
    let address = next.transfer.address;
    let (_, note) = grants.ask(net, rt, who, command, address, note, wallet, txn, at);
    note
}
