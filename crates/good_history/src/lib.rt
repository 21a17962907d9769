//! The whole definitions: a sound history keeps the points of requests, those of four-phase traffic and those of grants,
//! and a good one has those of the end too.
//!
//! - `specs/Good` has the definitions, `specs/Laws` their laws, and `specs/Worked` runs that were made by hand.
//!
//! **Grants**: what a history keeps of the direct memory interface (IEEE 1666-2011, clause 11.2).
//! - `specs/Plain` says which accesses are plain, `specs/Grants` what grants, invalidations and closings are to one
//!   another, `specs/Kept` has the points, `specs/GrantLaws` their laws, and `specs/GrantsWorked` runs.
//!
//! **Joined**: where initiators run side by side, each knows its own entries alone, and each memory its own log. Once they
//! are joined there is one history, of which each has its part, and what each keeps by itself makes the whole right.
//! - `specs/Own` says that an initiator's own entries tell all that it asks for and is answered, `specs/Joined` what each
//!   keeps of its part, `specs/JoinedLaws` that the whole is then right, and `specs/JoinedWorked` has a run of two.
//!
//! Nothing here runs: each function carries a law.
#![tactic(auto)]

pub mod grant_laws;
pub mod grants_worked;
pub mod joined_laws;
pub mod joined_worked;
pub mod laws;
pub mod worked;
