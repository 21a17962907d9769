//! What four-phase traffic is: the log of one hop, and whole histories (IEEE 1666-2011, clauses 14.5 and 15.2).
//!
//! **A hop** is one binding of an upstream socket to a downstream component; its log has the calls of non-blocking
//! transport on it.
//! - `specs/Answers` and `specs/Table` say which answers and which sequences the modes of the two ends make.
//! - `specs/Board` says which calls a hop takes, at which times and with which answers: the board has the transactions
//!   that have begun and not ended, and a log is a list of steps from board to board. It is a relation of the log and
//!   no function of it: where a transaction begins twice, the log doesn't say on which of its lanes a later call is.
//! - `specs/Protocol` and `specs/ByRules` say what the log has to keep, without a board: `FollowsPhases`, `IsExclusive`
//!   and `KeepsRules`, which has the answers and the times.
//! - `specs/Lives` has the calls of one lane, from its BEGIN_REQ on.
//! - `laws` says that a log of such steps keeps it, `worked` has small logs.
//!
//! **A whole history** tells which components stand at the ends of each hop, which hops each access passes, and what its
//! calls, its references and its access at the memory have to stand after, at which times.
//! - `specs/World` has what is read of a platform, `specs/Platform` reads it of a plan. `specs/Events` has
//!   entries with the numbers of their references.
//! - `specs/Numbers` has the times that an access's earlier entries give, `specs/Backed` which known
//!   entries back an entry: what a component has to know before it makes it.
//! - `specs/Pools` is the log of a payload pool, with the lives of its slots, `specs/Counts` the same as a
//!   report shows it.
//! - `specs/Points` says what the calls and accesses of a history keep, `specs/Ends` when accesses end, and
//!   `specs/Issue` when an initiator issues its requests.
//! - `specs/Traffic` has the points of a plan and a history: `FollowsPhases`, `IsExclusive`, `PassesHops`,
//!   `KeepsPools` and `HasPhaseTimes`, and those of the end, `HasWholeSequences`, `HasFreedPayloads` and
//!   `HasReleaseTimes`.
//!
//! **Laws**: what single components know of each entry that they make gives what the whole history keeps, for any
//! platform, any number of hops on a way, and any order of the entries (`traffic_laws`).
//! - `specs/Law` has the premises, which hops, pools and single entries give, and the conclusions: the orders of the
//!   entries of each access, the sequences of the table, exclusion on each hop, the times.
//! - `specs/Ending` says what holds of an access whose payload is back in its pool, `specs/Counting` that known entries
//!   are all, and that no transaction begins twice, `specs/Plans` has the laws of a plan, and `specs/Valid` what a
//!   platform has to keep that they hold for it.
//!
//! Nothing here runs: each function carries a law.
#![tactic(auto)]

pub mod laws;
pub mod traffic_laws;
pub mod worked;
