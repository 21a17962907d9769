//! What a net leaves once all jobs have ended, in the words of the end of a run.
//!
//! - `specs/Closed` says what each memory, hop and pool leaves with its seat, and what a closed history is.
//! - `specs/Finished` says what an initiator that has finished hands in, by its style.
//! - `specs/Laws`: what the objects leave is what the law of ended runs wants of them, and with the initiators
//!   the whole run has ended.
//!
//! - `specs/Done` says what an initiator hands in of its grants, `specs/Leaves` what it leaves that has finished, and
//!   `specs/GrantLaws` that with what the memories' logs tell of gates the whole history has the points of grants, at its
//!   end too (IEEE 1666-2011, clause 11.2); and so has a closed history whose net is taken apart.
//!
//! Nothing here runs: each function carries a law.
#![tactic(auto)]

pub mod grant_laws;

ghost use Rattle.net_end.specs.Laws.{InitiatorsEnd, MemoriesLeaveGates, ObjectsLeave, PortsTellGrants};

/// The objects of a net, whose history is closed, have left what the law of ended runs wants of them: each
/// entry is backed, each hop made its steps, all slots are free, and the tickets are counted.
pub fn objects_leave_what_is_wanted()
    ensures { ObjectsLeave }
{}

/// Of the gates of each memory of a net, whose history is closed, the history has what the memory wrote.
pub fn memories_leave_gates()
    ensures { MemoriesLeaveGates }
{}

/// Where all have, and each entry stands in its place, a four-phase initiator has kept what a history of grants asks
/// of its entries (IEEE 1666-2011, clause 11.2), also with invalidations.
pub fn ports_tell_grants()
    ensures { PortsTellGrants }
{}

/// Where all initiators have finished, by their styles, and all objects are done with, the run has ended whole,
/// and each initiator's end is what the report says of it.
pub fn initiators_end_the_run()
    ensures { InitiatorsEnd }
{}
