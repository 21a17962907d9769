// The net of a plan, taken apart.
ghost use Rattle.std.specs.Prelude.{◌≡◌, ℕ, ◌+◌, ◌<◌, ◌++◌, [], ◌∷◌, List, length, slice_get, vec_capacity, All, IfOk};
ghost use Rattle.token_book.specs.Purse.{IsOf, Purse};
ghost use Rattle.cargo_model.specs.Known.{objects_of};
ghost use Rattle.plat_net.specs.Net.{AreHops, AreMemories, ArePools};
ghost use Rattle.plat_net.specs.Objects.{pools_start};
ghost use Rattle.net_end.specs.Closed.{AreHandedBack, AreLeft};
ghost use Rattle.plat_end.specs.Apart.{AreStores, HaveLeftLogs, left_by};
ghost use Rattle.plat_end.specs.Room.{Fits, HasRoom};
ghost use Rattle.plat_build.specs.Kept.{HasNoOthers};
ghost use Rattle.plat_end.specs.Taking.{IsTaken};

use crate::parts::{hop_part, memory_part, pool_part};
use entry_log::Log;
use plat_net::{Net, PlatSeat, SharedHop, SharedMemory, SharedPool, Sharing, TlmLaw};
use route_plan::Plan;
use shared_object::Naming;
use std::alloc::Global;
use std::sync::Wait;
use tlm_types::{Bytes, Memory};
use token_book::{Tokens, Wallet};

/// What is left of a net: the log and the seat of each object, in the order of the objects of its history
/// (memories, hops, pools), and the bytes of each memory. Its lists are made with room for all of it before a run
/// begins, so that what is left at its end takes no memory.
#[derive(Drop)]
pub struct Apart {
    /// The log of each object.
    pub logs: Vec<Log>,
    /// The bytes of each memory, as its log leaves them.
    pub stores: Vec<Bytes>,
    /// The seat of each object in the history.
    pub seats: Vec<PlatSeat>,
}

// A platform has at most so many memories, hops and pools.
const MOST_OBJECTS: usize = 336;

impl Apart {
    /// What is left of no object, with room for what all objects of a net leave. Its only error is want of memory.
    pub fn room_for<N: Naming<Plan, TlmLaw>, S: Sharing<N>>(
        alloc: Global,
        net: &Net<N, S>,
    ) -> Result<Apart, Memory>
        ensures { IfOk result (HasRoom (length (objects_of N.frame.world.platform)) (length N.frame.world.platform.memories)) }
    {
        let memories = net.plan().platform().memories.as_slice().len();
        Apart::with_room(alloc, MOST_OBJECTS, memories)
    }

    // The same with room for what so many objects leave, of which so many are memories.
    fn with_room(alloc: Global, objects: usize, memories: usize) -> Result<Apart, Memory>
        ensures { IfOk result (HasRoom objects memories) }
    {
        let logs = Vec::with_capacity(alloc, objects)?;
        let stores = Vec::with_capacity(alloc, memories)?;
        let seats = Vec::with_capacity(alloc, objects)?;
        Ok(Apart {
            logs,
            stores,
            seats,
        })
    }

    // Adds what the next object left, for which there is room.
    fn add(&mut self, log: Log, seat: PlatSeat)
        requires log { length self.old.logs.items < vec_capacity self.old.logs }
        requires seat { length self.old.seats.items < vec_capacity self.old.seats }
        ensures logs { self.new.logs.items ≡ self.old.logs.items ++ log ∷ [] }
        ensures seats { self.new.seats.items ≡ self.old.seats.items ++ seat ∷ [] }
        ensures stores { self.new.stores ≡ self.old.stores }
        ensures room { (objects : ℕ) (memories : ℕ) → Fits objects memories self.old → Fits objects memories self.new }
    {
        self.logs.push_reserved(log);
        self.seats.push_reserved(seat);
    }
}

// Takes all memories apart, which come first.
fn take_memories<N: Naming<Plan, TlmLaw>, S: Sharing<N>, R: Wait>(
    rt: &R,
    tickets: &Tokens,
    memories: Vec<SharedMemory<N, S>>,
    wallets: &mut [Wallet],
    apart: &mut Apart,
)
    requires tickets { tickets.now ≡ N.tokens }
    requires memories { AreMemories N.frame.world memories.items }
    requires room { HasRoom (length (objects_of N.frame.world.platform)) (length N.frame.world.platform.memories) apart.old }
    requires of { All (IsOf N.tokens) wallets.old }
    ensures of { All (IsOf N.tokens) wallets.new }
    ensures taken { IsTaken N.table N.frame wallets.old wallets.new apart.new.logs.items apart.new.seats.items }
    ensures count { length apart.new.seats.items ≡ length memories.items }
    ensures stores { AreStores N.frame.world.platform apart.new.logs.items apart.new.stores.items }
    ensures room { Fits (length (objects_of N.frame.world.platform)) (length N.frame.world.platform.memories) apart.new }
{
    for memory in memories {
        let (log, bytes, seat) = memory_part::<N, S, R>(rt, tickets, memory, wallets);
        apart.stores.push_reserved(bytes);
        apart.add(log, seat);
    }
}

// Takes all hops apart, after the memories.
fn take_hops<N: Naming<Plan, TlmLaw>, S: Sharing<N>, R: Wait>(
    rt: &R,
    tickets: &Tokens,
    hops: Vec<SharedHop<N, S>>,
    wallets: &mut [Wallet],
    apart: &mut Apart,
)
    requires tickets { tickets.now ≡ N.tokens }
    requires hops { AreHops N.frame.world.platform hops.items }
    requires first { length apart.old.seats.items ≡ length N.frame.world.platform.memories }
    requires beside { length apart.old.logs.items ≡ length apart.old.seats.items }
    requires room { Fits (length (objects_of N.frame.world.platform)) (length N.frame.world.platform.memories) apart.old }
    requires of { All (IsOf N.tokens) wallets.old }
    ensures of { All (IsOf N.tokens) wallets.new }
    ensures taken { (start : List Purse) →
        IsTaken N.table N.frame start wallets.old apart.old.logs.items apart.old.seats.items →
        IsTaken N.table N.frame start wallets.new apart.new.logs.items apart.new.seats.items }
    ensures count { length apart.new.seats.items ≡ length apart.old.seats.items + length hops.items }
    ensures beside { length apart.new.logs.items ≡ length apart.new.seats.items }
    ensures earlier { (k : ℕ) → k < length apart.old.logs.items →
        slice_get apart.new.logs.items k ≡ slice_get apart.old.logs.items k }
    ensures stores { apart.new.stores ≡ apart.old.stores }
    ensures room { Fits (length (objects_of N.frame.world.platform)) (length N.frame.world.platform.memories) apart.new }
{
    for hop in hops {
        let (log, seat) = hop_part::<N, S, R>(rt, tickets, hop, wallets);
        apart.add(log, seat);
    }
}

// Takes all pools apart, after the hops.
fn take_pools<N: Naming<Plan, TlmLaw>, S: Sharing<N>, R: Wait>(
    rt: &R,
    tickets: &Tokens,
    pools: Vec<SharedPool<N, S>>,
    wallets: &mut [Wallet],
    apart: &mut Apart,
)
    requires tickets { tickets.now ≡ N.tokens }
    requires pools { ArePools N.frame.world.platform pools.items }
    requires first { length apart.old.seats.items ≡ pools_start N.frame.world.platform }
    requires beside { length apart.old.logs.items ≡ length apart.old.seats.items }
    requires room { Fits (length (objects_of N.frame.world.platform)) (length N.frame.world.platform.memories) apart.old }
    requires of { All (IsOf N.tokens) wallets.old }
    ensures of { All (IsOf N.tokens) wallets.new }
    ensures taken { (start : List Purse) →
        IsTaken N.table N.frame start wallets.old apart.old.logs.items apart.old.seats.items →
        IsTaken N.table N.frame start wallets.new apart.new.logs.items apart.new.seats.items }
    ensures count { length apart.new.seats.items ≡ length apart.old.seats.items + length pools.items }
    ensures earlier { (k : ℕ) → k < length apart.old.logs.items →
        slice_get apart.new.logs.items k ≡ slice_get apart.old.logs.items k }
    ensures stores { apart.new.stores ≡ apart.old.stores }
{
    for pool in pools {
        let (log, seat) = pool_part::<N, S, R>(rt, tickets, pool, wallets);
        apart.add(log, seat);
    }
}

/// Takes all objects of a net apart, once all jobs have ended: its memories, hops and pools in order. The
/// tickets that the wallets of the initiators, in order, have left go back into the books of their
/// objects. What they leave is put into lists that were made with room for it, so this takes no memory. A pool with
/// a live slot is waited for without end.
pub fn take_apart<N: Naming<Plan, TlmLaw>, S: Sharing<N>, R: Wait>(
    rt: &R,
    tickets: &Tokens,
    memories: Vec<SharedMemory<N, S>>,
    hops: Vec<SharedHop<N, S>>,
    pools: Vec<SharedPool<N, S>>,
    wallets: &mut [Wallet],
    mut apart: Apart,
) -> Apart
    requires tickets { tickets.now ≡ N.tokens }
    requires memories { AreMemories N.frame.world memories.items }
    requires hops { AreHops N.frame.world.platform hops.items }
    requires pools { ArePools N.frame.world.platform pools.items }
    requires of { All (IsOf N.tokens) wallets.old }
    requires no_others { All (HasNoOthers N.frame.world.platform) wallets.old }
    requires room { HasRoom (length (objects_of N.frame.world.platform)) (length N.frame.world.platform.memories) apart }
    ensures left { AreLeft N.table N.frame result.seats.items }
    ensures logs { HaveLeftLogs N.table N.frame result.logs.items result.seats.items }
    ensures stores { AreStores N.frame.world.platform result.logs.items result.stores.items }
    ensures handed_back { AreHandedBack N.frame result.seats.items (left_by N.frame.world.platform wallets.old) }
{
    take_memories::<N, S, R>(rt, tickets, memories, wallets, &mut apart);
    take_hops::<N, S, R>(rt, tickets, hops, wallets, &mut apart);
    take_pools::<N, S, R>(rt, tickets, pools, wallets, &mut apart);
    apart
}
