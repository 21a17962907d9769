//! Direct access to memories (IEEE 1666-2011, clause 11.2): the grants that an initiator holds, their use,
//! and invalidation.
//!
//! - A `GrantTable` has the grants of one direct initiator, each with the addresses of the initiator that
//!   lead into it. `find` answers the first that covers an access.
//! - `ask` wishes for a grant after an access, and holds it. `use_grant` makes an access through the gate
//!   of a grant, or finds the grant stale and drops it.
//! - `invalidate` tells an invalidation and ends the grants that it overlaps: it marks each gate, waits
//!   until nobody is inside, and closes it. `begin_invalidation` and `end_next_grant` are its parts, of one entry each at
//!   most, between which others may make entries.
//! - `grants_stay_known` is the law that a grant stays usable as a note learns more, and
//!   `invalidations_add_own_entries` what an invalidation adds to the own entries of its initiator, and
//!   `invalidations_go_on` that one which is under way stays so as its note learns more.
//!
//! Promises: a grant is held with just the range that the memory gave, translated up and cut to the windows
//! on the way. A direct access is one entry, after its grant and before any closing of its gate, with status
//! OK. A grant is found stale only where an invalidation that overlaps it is known after it. When `invalidate`
//! returns, the closing of each grant that it overlaps and that was given before it is known. No call takes
//! memory but the making of a table.
#![tactic(auto)]

mod access;
mod ask;
mod invalidation;
mod laws;
mod made;
mod range;
mod table;

pub use access::UseOf;
pub use ask::Asked;
pub use invalidation::{Ending, Revocation, begin_invalidation, end_next_grant, invalidate};
pub use laws::{grants_stay_known, invalidations_add_own_entries, invalidations_go_on};
pub use table::{GrantTable, Held};
