//! Plans: platforms of a good shape (`platform_shape`) with the scripts of their initiators.
//!
//! - `plan` makes a `Plan` of a shape and the script of each initiator. It answers where addresses
//!   lead (`route`), how long that takes, also where no memory is (`latency`), over which hops (`hops`,
//!   with `hop_ends`), what the scripts may add to each object at most (`entries` and `logged`, with the
//!   parts `share` and `logged_by` of each initiator), and what it was made of.
//! - Inside, `Routes` are the tables of a platform's windows and hops, with the place of each memory,
//!   hop and pool in one row. A `Tally` counts a script at all these objects in one pass, where what is
//!   repeated is counted once and multiplied, and a `Share` is what was counted of an initiator at an
//!   object.
//!
//! Promises: a plan is refused just where `checked_plan` of `specs/Valid.antt` refuses it: more than
//! 1,000,000 entries, or else more than 67,108,864 bytes. A plan's routes and hops are those of the walk
//! of the definitions, in constant time for each router on the way, and can't fail. Its counts are those
//! of `specs/Planned.antt`: they are taken once, when it is made. The only other answer is want of memory.
#![tactic(auto)]

mod copies;
mod counts;
mod ends;
mod latency;
mod numbering;
mod planning;
mod plans;
mod routes;
mod shares;
mod step;

pub use ends::{HopEnds, Up};
pub use planning::plan;
pub use plans::Plan;
pub use step::Route;
pub use tlm_model::Target as Down;
