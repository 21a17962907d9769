//! Laws of what calls add to the history.
ghost use Rattle.node_hops.specs.Laws.{AddedIsNew, AddedOfIsNew, BeginsAdd, CallsAdd, EntersAdd, ForwardsAdd, HopsAdd, PoolsAdd, ServesAdd, TakesAdd};

/// A call that is admitted adds an entry with its content.
pub fn enters_add()
    ensures { EntersAdd }
{}

/// A call that a hop has made adds an entry of the hop.
pub fn hops_add()
    ensures { HopsAdd }
{}

/// BEGIN_REQ that isn't Busy adds an entry of the hop, of its transaction.
pub fn begins_add()
    ensures { BeginsAdd }
{}

/// So it does where the access at the memory is made with it.
pub fn forwards_add()
    ensures { ForwardsAdd }
{}

/// A call that a pool has made adds an entry of the pool.
pub fn pools_add()
    ensures { PoolsAdd }
{}

/// A Take adds an entry of the pool, of its transaction.
pub fn takes_add()
    ensures { TakesAdd }
{}

/// The access of a request adds an entry of the memory, of its transaction.
pub fn serves_add()
    ensures { ServesAdd }
{}

/// A call of blocking transport or a debug read adds an entry of the memory, of its transaction.
pub fn calls_add()
    ensures { CallsAdd }
{}

/// What was added is past all that was known.
pub fn added_is_new()
    ensures { AddedIsNew }
{}

/// So is what was added of a transaction.
pub fn added_of_is_new()
    ensures { AddedOfIsNew }
{}
