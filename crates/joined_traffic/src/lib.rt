//! What initiators of all styles, hops, pools and memories leave at the end of a run makes the whole history right.
//!
//! No thread sees the history. A four-phase initiator knows the entries of its accesses and its debug reads, with their
//! positions, and what its wallet has left; each object has its log, with no more entries than were planned, less what the wallets
//! have left. By counting, these are all entries.
//!
//! - `specs/Accesses` counts the entries of accesses, `specs/Driven` says what an initiator knows of its entries and its
//!   wallet, `specs/Ended` what stands once all have finished, `specs/Issued` when requests were issued and what was waited for.
//! - `specs/Laws` has the laws: the premises of the law of four-phase traffic, its points, those of requests, and that the history
//!   is good.
//!
//! Nothing here runs: each function carries a law.
//!
//! **Grants**: what each initiator, each memory and the gates tell of grants makes the points of grants of the whole
//! history. `specs/Parts` says what each tells, `specs/Table` what the table of a direct initiator is, and
//! `specs/GrantLaws` that the whole then has the points.
#![tactic(auto)]

pub mod grant_laws;
pub mod table;

ghost use Rattle.joined_traffic.specs.Laws.{EndedHasPremises, EndedHasRequests, EndedHasTraffic, EndedIsGood, EndedIsSound, UngrantedHasGrants};

/// What initiators, hops, pools and memories leave at the end of a run has the premises of the law of four-phase
/// traffic, for the times at which the initiators issued their accesses.
pub fn ended_runs_have_premises()
    ensures { EndedHasPremises }
{}

/// Where the initiators also issued their requests when they may, the whole history has the points of four-phase traffic
/// that backed entries give, and those of the end.
pub fn ended_runs_have_traffic()
    ensures { EndedHasTraffic }
{}

/// It runs the scripts of the initiators, and answers all that they ask for.
pub fn ended_runs_have_requests()
    ensures { EndedHasRequests }
{}

/// A run that has ended leaves a good history, where initiators of all styles run side by side and the points of grants
/// hold, and each of its beginnings is sound. Without direct initiators and invalidations they hold.
pub fn ended_runs_are_good()
    ensures good { EndedIsGood }
    ensures beginnings { EndedIsSound }
    ensures ungranted { UngrantedHasGrants }
{}
