// Who shares the objects of a net.
use crate::law::TlmLaw;
use cargo_net::{LockedHop, LockedMemory, LockedPool};
use net_signs::Count;
use route_plan::Plan;
use shared_object::{Keeper, Naming};
use std::cell::{Cell, RefCell};
use std::sync::Mutex;
use std::sync::atomic::AtomicU64;

/// Who shares a net, and so what keeps its objects, and how its signs count.
pub trait Sharing<N: Naming<Plan, TlmLaw>> {
    /// What keeps a memory.
    type Memory: Keeper<LockedMemory<N>> + Drop;

    /// What keeps a hop.
    type Hop: Keeper<LockedHop<N>> + Drop;

    /// What keeps a pool.
    type Pool: Keeper<LockedPool<N>> + Drop;

    /// What counts signs.
    type Count: Count;
}

/// Threads share the net: each object is under a lock.
pub struct ManyThreads {}

/// One thread has the net: each object is in a cell, so that a call takes no lock.
pub struct OneThread {}

impl<N: Naming<Plan, TlmLaw>> Sharing<N> for ManyThreads {
    type Memory = Mutex<LockedMemory<N>>;

    type Hop = Mutex<LockedHop<N>>;

    type Pool = Mutex<LockedPool<N>>;

    type Count = AtomicU64;
}

impl<N: Naming<Plan, TlmLaw>> Sharing<N> for OneThread {
    type Memory = RefCell<LockedMemory<N>>;

    type Hop = RefCell<LockedHop<N>>;

    type Pool = RefCell<LockedPool<N>>;

    type Count = Cell<u64>;
}
