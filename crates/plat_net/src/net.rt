// The net: what threads share of a platform.
ghost use Rattle.std.specs.Prelude.{◌≡◌, ◌<◌, length, vec_capacity};
ghost use Rattle.view_lists.specs.Lists.{Has};
ghost use Rattle.route_plan.specs.Valid.{hop_count};
ghost use Rattle.plat_net.specs.Net.{hop_numbers, memory_numbers, pool_numbers, HasPool, HasPoolOf, IsRoom};
ghost use Rattle.plat_net.specs.Objects.{pools_of};

use crate::calls::returned;
use crate::law::{PlatHistory, PlatNote, SharedHop, SharedMemory, SharedPool, TlmLaw};
use crate::reach::Reach;
use crate::sharing::Sharing;
use generic_payload::Payload;
use net_signs::Signs;
use region_object::RegionCall;
use route_plan::Plan;
use shared_object::{Naming, Stepped, kept_by_others};
use std::alloc::Global;
use std::marker::Model;
use std::sync::Wait;
use tlm_types::Memory;
use token_book::{Tokens, Wallet};

/// The objects of a platform, as S keeps them, with their history and their tokens, which N names. Contracts
/// see the plan.
pub struct Net<N: Naming<Plan, TlmLaw>, S: Sharing<N>> {
    plan: Plan,
    history: PlatHistory,
    tickets: Tokens,
    memories: Vec<SharedMemory<N, S>>,
    hops: Vec<SharedHop<N, S>>,
    pools: Vec<SharedPool<N, S>>,
    signs: Signs<S::Count>,
}

impl<N: Naming<Plan, TlmLaw>, S: Sharing<N>> Model for Net<N, S> {
    ghost use Rattle.std.specs.Prelude.{◌≡◌};
    ghost use Rattle.tlm_model.specs.Plan as model;
    ghost use Rattle.plat_net.specs.Net.{AreHops, AreMemories, ArePools};
    ghost use Rattle.plat_net.specs.Objects.{frame_of};

    ghost Value = { model.Plan };

    ghost view = { λ n. n.plan };

    ghost invariant = { λ n. (n.plan ≡ N.frame.world) × (n.history.table ≡ N.table) × (n.history.frame ≡ N.frame)
        × (n.tickets ≡ N.tokens) × AreMemories n.plan n.memories.items
        × AreHops n.plan.platform n.hops.items × ArePools n.plan.platform n.pools.items
        × (N.frame ≡ frame_of n.plan) };
}

// Written out, so that crates above call it and needn't prove again how each part is let go of.
impl<N: Naming<Plan, TlmLaw>, S: Sharing<N>> Drop for Net<N, S> {
    fn drop(self) {
        let Net {
            plan: _plan,
            history: _history,
            tickets: _tickets,
            memories: _memories,
            hops: _hops,
            pools: _pools,
            signs: _signs,
        } = self;
    }
}

/// What a net consists of.
#[derive(Drop)]
pub struct NetParts<N: Naming<Plan, TlmLaw>, S: Sharing<N>> {
    pub history: PlatHistory,
    pub tickets: Tokens,
    pub memories: Vec<SharedMemory<N, S>>,
    pub hops: Vec<SharedHop<N, S>>,
    pub pools: Vec<SharedPool<N, S>>,
}

/// Room for the objects of a net and for its signs, when they are kept in another way.
#[derive(Drop)]
pub struct NetRoom<N: Naming<Plan, TlmLaw>, S: Sharing<N>> {
    memories: Vec<SharedMemory<N, S>>,
    hops: Vec<SharedHop<N, S>>,
    pools: Vec<SharedPool<N, S>>,
    signs: Signs<S::Count>,
    ghost for_memories: { IsRoom (length N.frame.world.platform.memories) memories.items (vec_capacity memories) },
    ghost for_hops: { IsRoom (hop_count N.frame.world.platform) hops.items (vec_capacity hops) },
    ghost for_pools: { IsRoom (length (pools_of N.frame.world.platform (length N.frame.world.platform.initiators))) pools.items (vec_capacity pools) },
}

impl<N: Naming<Plan, TlmLaw>, S: Sharing<N>> Net<N, S> {
    ghost use Rattle.plat_net.specs.Net.{AreHops, AreMemories, ArePools};
    ghost use Rattle.plat_net.specs.Objects.{frame_of};

    /// The net of a plan, of its history, its tokens, its objects in order, and the signs of so many hops and initiators. N
    /// names the history, which is made with what the plan counts, and the tokens.
    pub fn of_parts(
        plan: Plan,
        history: PlatHistory,
        tickets: Tokens,
        memories: Vec<SharedMemory<N, S>>,
        hops: Vec<SharedHop<N, S>>,
        pools: Vec<SharedPool<N, S>>,
        signs: Signs<S::Count>,
    ) -> Net<N, S>
        requires plan { plan ≡ N.frame.world }
        requires frame { N.frame ≡ frame_of plan }
        requires history { (history.table ≡ N.table) × (history.frame ≡ N.frame) }
        requires tickets { tickets ≡ N.tokens }
        requires memories { AreMemories plan memories.items }
        requires hops { AreHops plan.platform hops.items }
        requires pools { ArePools plan.platform pools.items }
        ensures { result ≡ plan }
    {
        Net {
            plan,
            history,
            tickets,
            memories,
            hops,
            pools,
            signs,
        }
    }

    /// Whether a request may wait on a hop for the component downstream. No clause speaks of this sign, nor of the next four: they
    /// tell who waits when a call may come to something.
    pub fn may_have_request(&self, hop: u32) -> bool {
        self.signs.has_request(hop)
    }

    /// Whether a response may wait on a hop for the component upstream.
    pub fn may_have_response(&self, hop: u32) -> bool {
        self.signs.has_response(hop)
    }

    /// Whether BEGIN_REQ may be taken on a hop: no request is open there, and a lane is free.
    pub fn may_begin(&self, hop: u32) -> bool {
        self.signs.may_begin(hop)
    }

    /// Whether BEGIN_RESP may be taken on a hop: no response is open there. So one that was sent may have ended.
    pub fn may_respond(&self, hop: u32) -> bool {
        self.signs.may_respond(hop)
    }

    /// Whether a payload may be taken from the pool of an initiator: a slot is free.
    pub fn may_take(&self, initiator: u32) -> bool {
        self.signs.may_take(initiator)
    }

    pub(crate) fn signs(&self) -> &Signs<S::Count> {
        &self.signs
    }

    /// The plan. The history was made with what it counts.
    pub fn plan(&self) -> &Plan
        ensures plan { result.now ≡ self.now }
        ensures world { self.now ≡ N.frame.world }
        ensures frame { N.frame ≡ frame_of N.frame.world }
    {
        &self.plan
    }

    /// The history.
    pub fn history(&self) -> &PlatHistory
        ensures { (result.now.table ≡ N.table) × (result.now.frame ≡ N.frame) }
    {
        &self.history
    }

    /// The tokens of the tickets.
    pub fn tickets(&self) -> &Tokens
        ensures { result.now ≡ N.tokens }
    {
        &self.tickets
    }

    /// The memory with this number.
    pub fn memory(&self, number: u32) -> &SharedMemory<N, S>
        requires { number < length self.now.platform.memories }
        ensures { result.now ≡ memory_numbers number }
    {
        &self.memories[number as usize]
    }

    /// The hop with this number.
    pub fn hop(&self, number: u32) -> &SharedHop<N, S>
        requires { number < hop_count self.now.platform }
        ensures { result.now ≡ hop_numbers self.now.platform number }
    {
        &self.hops[number as usize]
    }

    /// The pool of the initiator with this number, which is of four phases.
    pub fn pool(&self, initiator: u32) -> &SharedPool<N, S>
        requires { HasPool self.now.platform initiator }
        ensures { result.now ≡ pool_numbers self.now.platform initiator }
    {
        pool_of::<N, S>(&self.pools, initiator)
    }

    /// The memories' logs forget the entries that they have in store, and those that come after them, so that they can't be
    /// read any more. Contracts see no change.
    pub fn forget_memories<R: Wait>(&self, rt: &R) {
        for memory in &self.memories {
            memory.forget(rt);
        }
    }

    /// Room for its objects and its signs, when T keeps them. Its only error is want of memory.
    pub fn room_for<T: Sharing<N>>(&self, alloc: Global) -> Result<NetRoom<N, T>, Memory> {
        let memories = Vec::with_capacity(alloc, self.memories.len())?;
        let hops = Vec::with_capacity(alloc, self.hops.len())?;
        let pools = Vec::with_capacity(alloc, self.pools.len())?;
        let initiators = self.plan.platform().initiators.as_slice().len();
        let signs = Signs::new(alloc, self.hops.len(), initiators)?;
        Ok(NetRoom {
            memories,
            hops,
            pools,
            signs,
        })
    }

    /// The same net, whose objects T keeps from now on, in room that was made for them. It takes no memory.
    pub fn kept_by<T: Sharing<N>>(self, room: NetRoom<N, T>) -> Net<N, T>
        ensures { result ≡ self }
    {
        let NetRoom {
            memories,
            hops,
            pools,
            signs,
        } = room;
        signs.count_as(&self.signs);
        let Net {
            plan,
            history,
            tickets,
            memories: old_memories,
            hops: old_hops,
            pools: old_pools,
            signs: _signs,
        } = self;
        Net {
            plan,
            history,
            tickets,
            memories: kept_by_others(old_memories, memories),
            hops: kept_by_others(old_hops, hops),
            pools: kept_by_others(old_pools, pools),
            signs,
        }
    }

    /// The history, the tokens, and the memories, hops and pools in order.
    pub fn into_parts(self) -> NetParts<N, S>
        ensures world { self ≡ N.frame.world }
        ensures history { (result.history.table ≡ N.table) × (result.history.frame ≡ N.frame) }
        ensures tickets { result.tickets ≡ N.tokens }
        ensures memories { AreMemories self result.memories.items }
        ensures hops { AreHops self.platform result.hops.items }
        ensures pools { ArePools self.platform result.pools.items }
    {
        let Net {
            plan: _,
            history,
            tickets,
            memories,
            hops,
            pools,
            signs: _,
        } = self;
        NetParts {
            history,
            tickets,
            memories,
            hops,
            pools,
        }
    }
}

// The one of these pools that is the initiator's.
fn pool_of<N: Naming<Plan, TlmLaw>, S: Sharing<N>>(
    pools: &[SharedPool<N, S>],
    initiator: u32,
) -> &SharedPool<N, S>
    requires { HasPoolOf pools.now initiator }
    ensures own { result.now.own ≡ initiator }
    ensures has { Has pools.now result.now }
{
    for pool in pools {
        if pool.own_number() == initiator {
            return pool;
        }
    }
    unreachable!()
}

impl<N: Naming<Plan, TlmLaw>, S: Sharing<N>> Reach<N, S> for Net<N, S> {
    #[inline(always)]
    fn net(&self) -> &Net<N, S> {
        self
    }

    #[inline(always)]
    fn call<R: Wait>(
        &mut self,
        rt: &R,
        memory: u32,
        note: PlatNote,
        wallet: &mut Wallet,
        call: RegionCall,
    ) -> (Payload, PlatNote) {
        let ticket = wallet.pull(&self.tickets, memory, call.cost());
        let place = &mut self.memories[memory as usize];
        let stepped = place.step_alone(rt, &self.history, &self.tickets, note, Some(ticket), call);
        let Stepped {
            reply,
            position: _,
            note,
            ticket: _,
        } = stepped;
        (returned(reply), note)
    }
}
