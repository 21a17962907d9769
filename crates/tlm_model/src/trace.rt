// Which entries a report shows.

/// Which entries a report shows: each, the accesses alone, or none.
#[derive(Clone, Copy, Debug, PartialEq, Eq)]
pub enum Trace {
    All,
    Accesses,
    None,
}
