//! The run of one blocking or direct initiator, for those who run initiators side by side.
//!
//! - `InitiatorRun` is an initiator under way: where its script stands, its local time, its syncs and
//!   the round that it has been let into. `step` makes a `Move` without an entry: an access or debug read
//!   that has no route is noted as refused, one that has is a `NextAccess`, and `complete` goes on after it. An
//!   invalidation that has a route is a `NextInvalidation`, and `pass_invalidation` goes on after it; one that
//!   has none is passed over. `advance` makes such moves as long as there are any and the rounds let it; a `Stop` tells
//!   where they have led to. `end_so_far` tells how far a run has come.
//! - `take_turn` makes its moves up to and with its next entry at a memory, as far as the rounds let it; a
//!   `Turn` tells how that ended.
//!
//! Promises: a move keeps to the script by the replies so far (`Keeps`), makes at most one sync
//! (`SyncsOnce`) and takes at most one operation, or access of one (`StepsOnce`); where it makes no
//! entry there is less of the script left (`IsMove`). A turn ends with an entry, at the end of the script,
//! or just where the last sync isn't let through (`IsTurn`, `HasGoneOn`; IEEE 1666-2011, clause 16.2). Want
//! of memory is answered only where a run is made: no move and no turn can fail.
#![tactic(auto)]

mod run;
mod turn;

pub use run::{InitiatorRun, Move, NextAccess, NextInvalidation, Stop, copied_refusals};
pub use turn::{Turn, take_turn};
