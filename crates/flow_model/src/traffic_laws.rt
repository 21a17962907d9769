//! Laws of four-phase traffic over whole histories (IEEE 1666-2011, clause 15.2): what single components know of each
//! entry that they make gives what the whole history keeps. And laws of the traffic of a plan: its points hold of each
//! beginning of a history that has them, of each history that single components made as they may, and of each history
//! without four-phase traffic.

ghost use Rattle.flow_model.specs.Counting.{BeginsOnceLaw, CountingLaw};
ghost use Rattle.flow_model.specs.Ending.{AllFreedLaw, CountLaw, EndingLaw, NumbersLaw};
ghost use Rattle.flow_model.specs.Law.{Law, Monotone};
ghost use Rattle.flow_model.specs.Plans.{DecoupledTraffic, EndedLaw, HasTrafficBeginnings, IssueLaw, TrafficLaw};
ghost use Rattle.flow_model.specs.Valid.{WorldLaw};

/// Where each entry is backed by those before it and each hop and pool made its log, the orders, the table,
/// exclusion and the times hold of the whole history.
pub fn fourphase_law()
    ensures { Law }
{}

/// A list with more entries backs no less.
pub fn monotone()
    ensures { Monotone }
{}

/// An access whose payload is back in its pool has a whole sequence on each of its hops, all of its references
/// are acquired and released, at the times at which it ended on the hops, and it was served if it has a
/// route.
pub fn ending_law()
    ensures { EndingLaw }
{}

/// Each of the times that the entries of an access give is one number.
pub fn numbers_law()
    ensures { NumbersLaw }
{}

/// The number of an Acquire is the number of those of its transaction before it.
pub fn count_law()
    ensures { CountLaw }
{}

/// Where an object has no more entries than were spent on it, and each transaction has entries for all that it
/// spent, these are all.
pub fn counting_law()
    ensures { CountingLaw }
{}

/// Where the calls on a hop are no more than a whole sequence for each transaction, none begins twice.
pub fn begins_once_law()
    ensures { BeginsOnceLaw }
{}

/// Where no slot of a pool is live, each transaction that was taken has its freed Release.
pub fn all_freed_law()
    ensures { AllFreedLaw }
{}

/// Each beginning of a history that has the points has them.
pub fn beginnings_keep_traffic()
    ensures { HasTrafficBeginnings }
{}

/// A history of accesses, grants, invalidations and closings alone has the points, for a plan without four-phase
/// initiators.
pub fn decoupled_histories_keep_traffic()
    ensures { DecoupledTraffic }
{}

/// A history whose entries are backed by those before them, on hops and pools that made their logs, has the
/// points, but for the times at which requests are issued.
pub fn backed_histories_keep_traffic()
    ensures { TrafficLaw }
{}

/// Where debug reads, invalidations and closings have the current time of their initiator too, and it waits for its
/// accesses, the history has all the points.
pub fn timely_histories_keep_traffic()
    ensures { IssueLaw }
{}

/// On a platform without a cycle no access passes a hop twice.
pub fn platforms_without_cycles_are_worlds()
    ensures { WorldLaw }
{}

/// Where each access is back in its pool, each has a whole sequence on each of its hops, one Take, an Acquire for
/// each hop and one Release more, at the times at which it ended on its hops.
pub fn freed_accesses_have_ended()
    ensures { EndedLaw }
{}
