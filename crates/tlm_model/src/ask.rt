// What an operation asks for.

/// What is asked for, whatever is answered: an access or a debug read of this address, with the bytes
/// that it logs (its length and its enables), or an invalidation.
#[derive(Clone, Copy)]
pub enum Ask {
    Access { address: u64, logged: u64 },
    DebugRead { address: u64, logged: u64 },
    Invalidation { address: u64 },
}

/// What an operation asks for, in order.
#[derive(Clone, Copy)]
pub enum Asks {
    Nothing,
    One(Ask),
    Two(Ask, Ask),
}
