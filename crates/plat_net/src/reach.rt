// The ways to the memories of a net.
ghost use Rattle.std.specs.Prelude.{◌≡◌, ◌<◌, ◌≤◌, length};
ghost use Rattle.shared_object.specs.Steps.{IsNote};
ghost use Rattle.token_book.specs.Purse.{IsOf, bytes_of, left_of};
ghost use Rattle.region_object.specs.Call.{IsFit, cost_of, payload_of, txn_of};
ghost use Rattle.plat_net.specs.Calls.{HasNoPassage, IsCalled, OneTicketLess};

use crate::law::{PlatNote, TlmLaw};
use crate::net::Net;
use crate::sharing::Sharing;
use generic_payload::Payload;
use region_object::RegionCall;
use route_plan::Plan;
use shared_object::Naming;
use std::sync::Wait;
use token_book::Wallet;

/// A way to the memories of a net: `&Net` for a thread that shares it with others, which takes the lock of
/// a memory for a call, and `Net` for the only one who has it, which takes none.
pub trait Reach<N: Naming<Plan, TlmLaw>, S: Sharing<N>> {
    /// The net.
    fn net(&self) -> &Net<N, S>;

    /// Makes a call at the memory with this number, as `Net::call_memory` does.
    fn call<R: Wait>(
        &mut self,
        rt: &R,
        memory: u32,
        note: PlatNote,
        wallet: &mut Wallet,
        call: RegionCall,
    ) -> (Payload, PlatNote)
        requires memory { memory < length N.frame.world.platform.memories }
        requires fit { IsFit call }
        requires passage { HasNoPassage N.frame.world (txn_of call) }
        requires note { IsNote N.table note }
        requires wallet { IsOf N.tokens wallet.old }
        requires ticket { (0 < left_of wallet.old memory) × (cost_of call ≤ bytes_of wallet.old memory) }
        ensures entry { IsCalled N.frame.world memory call note.knows result.1.knows result.0 }
        ensures room { result.0.room ≡ (payload_of call).room }
        ensures note { IsNote N.table result.1 }
        ensures wallet { IsOf N.tokens wallet.new }
        ensures ticket { OneTicketLess memory (cost_of call) wallet.old wallet.new };
}

impl<N: Naming<Plan, TlmLaw>, S: Sharing<N>> Reach<N, S> for &Net<N, S> {
    #[inline(always)]
    fn net(&self) -> &Net<N, S> {
        self
    }

    #[inline(always)]
    fn call<R: Wait>(
        &mut self,
        rt: &R,
        memory: u32,
        note: PlatNote,
        wallet: &mut Wallet,
        call: RegionCall,
    ) -> (Payload, PlatNote) {
        let net = *self;
        let _ = net.plan();
        net.call_memory(rt, memory, note, wallet, call)
    }
}
