// The calls of a pool, and its replies.
use crate::baton::{Baton, Hold};
use tlm_types::{Ps, TxnId};

/// What can be asked of a pool. Times are in picoseconds.
#[derive(Drop)]
pub enum PoolCall {
    /// A payload for a transaction.
    Take { txn: TxnId, at: Ps },
    /// One reference more.
    Acquire { baton: Baton, at: Ps },
    /// A reference is given up.
    Release { hold: Hold, at: Ps },
    /// The initiator's own reference is given up, and the payload goes back.
    Stow { baton: Baton, at: Ps },
    /// How many slots are live. This adds no entry.
    Live,
}

/// What a pool answers.
#[derive(Drop)]
pub enum PoolReply {
    /// The payload, or none exactly where all slots are live.
    Took(Option<Baton>),
    /// The baton that was handed in, and the new reference.
    Acquired(Baton, Hold),
    /// Whether it was the last reference of its slot.
    Released { freed: bool },
    /// The number of live slots.
    Live(u32),
}
