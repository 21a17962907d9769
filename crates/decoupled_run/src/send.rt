// An access or a debug read on its way.
ghost use Rattle.std.specs.Prelude.{◌≡◌, ◌+◌, ◌<◌, length, Some};
ghost use Rattle.shared_object.specs.Steps.{IsNote};
ghost use Rattle.token_book.specs.Purse.{IsOf};
ghost use Rattle.region_object.specs.Call.{payload_cost};
ghost use Rattle.plat_net.specs.Calls.{CanPay, HasNoPassage, IsCalled, OneTicketLess, route_at};
ghost use Rattle.initiator_run.specs.Access.{call_at};
ghost use Rattle.decoupled_run.specs.Sent.{IsSentBy};

use blocking_path::{b_transport_along, transport_dbg};
use generic_payload::Payload;
use initiator_run::NextAccess;
use plat_net::{Carried, PlatNote, Reach, Sharing, TlmLaw};
use route_plan::Plan;
use script_engine::TransferKind;
use shared_object::Naming;
use std::sync::Wait;
use tlm_types::{Ps, TxnId};
use token_book::Wallet;

/// Makes the access or the debug read of a script that is issued at `at`, in picoseconds, and whose
/// address has this route.
#[inline(always)]
pub(crate) fn send<N: Naming<Plan, TlmLaw>, S: Sharing<N>, B: Reach<N, S>, R: Wait>(
    reach: &mut B,
    rt: &R,
    who: u32,
    next: &NextAccess,
    payload: Payload,
    note: PlatNote,
    wallet: &mut Wallet,
    txn: TxnId,
    at: Ps,
) -> Carried
    requires who { who < length N.frame.world.platform.initiators }
    requires route { route_at N.frame.world who payload.address ≡ Some next.now.route }
    requires carries { IsSentBy next.now.transfer.kind payload }
    requires passage { HasNoPassage N.frame.world txn }
    requires note { IsNote N.table note }
    requires wallet { IsOf N.tokens wallet.old }
    requires ticket { CanPay payload wallet.old next.now.route }
    ensures entry { let route = next.now.route in IsCalled N.frame.world route.memory
        (call_at next.now.transfer.kind txn at route.before (record payload { address = route.offset })) note.knows result.note.knows result.payload }
    ensures room { result.payload.room ≡ payload.room }
    ensures note { IsNote N.table result.note }
    ensures wallet { IsOf N.tokens wallet.new }
    ensures ticket { OneTicketLess next.now.route.memory (payload_cost payload) wallet.old wallet.new }
{
    match next.transfer.kind {
        TransferKind::DebugRead => {
            let net = reach.net();
            let _ = net.plan();
            transport_dbg(net, rt, who, payload, note, wallet, txn, at)
        }
        TransferKind::Access { .. } => {
            b_transport_along(reach, rt, &next.route, payload, note, wallet, txn, at)
        }
    }
}
