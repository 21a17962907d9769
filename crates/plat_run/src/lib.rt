//! The run of a platform by threads.
//!
//! - `run` makes the jobs of a net that was just built (`begin_jobs`), lets workers give them turns until all initiators
//!   have finished, and makes the outcome of what the jobs and the memories have (`plat_end`). `run_plan` builds the net
//!   as well. `Logs` says whether the logs are kept: where nobody will read them, the memories forget what
//!   they log.
//! - `Actor` is a job of any kind, in a box: workers hand the box on, and a turn works in place. It answers a
//!   `JobTurn`: whether the job went on, let others go on, is held back by the board, or found nothing to do. A pump that would
//!   find nothing, by what the net tells, is passed over (`Waits`).
//! - A turn of a blocking or direct initiator, `decoupled_run::DecoupledInitiator`, is at most one operation, or one access
//!   of it with the grant that is asked for after it, and the sync that is due after it. `PortJob` is a four-phase initiator
//!   as a job: a turn of it is one pump of its port. `NodeJob` is a memory or a router as a job, which they are where
//!   some initiator is of four phases; a turn is one pump.
//!
//! Promises: whatever the threads do in which order, the history is good for the plan, it is the sealed
//! one, and the stores and ends are those of the definitions. The jobs stand in the order of their numbers, initiators
//! first; what an initiator leaves that has finished says that its script is done. A run takes no memory after its first
//! worker has started, but what the system takes for a thread: the room for what is left at its end is made before. Where
//! the logs are kept, the history is in store, so that it can be read.
#![tactic(auto)]

mod actor;
mod begin;
mod decoupled;
mod ending;
mod logs;
mod nodes;
mod port_job;
mod running;
mod turn;
mod waits;
mod workers;

pub use actor::Actor;
pub use logs::Logs;
pub use nodes::NodeJob;
pub use plat_end::PlatSealed;
pub use port_job::PortJob;
pub use running::{run, run_alone, run_plan};
pub use turn::JobTurn;
