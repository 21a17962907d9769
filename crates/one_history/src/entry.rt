// What an entry of the history is.

/// What the history reads of an entry. Gates are numbered through all objects in order. Ranges are
/// in bytes, first and last included.
#[derive(Clone, Copy)]
pub enum Sign {
    /// Any other entry.
    Plain,
    /// Direct access to a range was granted, through a gate.
    Granted { gate: u32, first: u64, last: u64 },
    /// A direct access inside a gate.
    Direct { gate: u32 },
    /// A range was invalidated.
    Invalidated { first: u64, last: u64 },
    /// A gate was closed: nobody is inside for good.
    Closed { gate: u32 },
}

/// An entry as contracts see it. No value of it is made.
pub struct Entry<E> {
    pub position: u64,
    pub object: u64,
    pub sign: Sign,
    pub content: E,
}
