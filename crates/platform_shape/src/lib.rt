//! Platforms whose routes are sound: what is known of a platform alone, whatever its scripts.
//!
//! - `shape` tests a platform and copies it into a `Shape`, or answers its first fault, which is the
//!   fault of the platform file. Initiators may have every style; `is_blocking` asks whether all are
//!   blocking.
//! - `has_path_to_memory` asks whether a path leads from an initiator to a memory, and `copy_platform`
//!   makes a platform that is the same.
//! - Inside, `Walks` are walks along windows, whatever the addresses. They are counted level by level,
//!   a count for each router, where two stand for any more: no path is listed, so sixteen routers of
//!   sixteen windows take no longer than their windows times their number.
//!
//! Promises: a platform is refused just where `checked_shape` of `specs/Shape.antt` refuses it, with
//! that refusal, and a `Shape` is the platform that it was made of. The only other answer is want of
//! memory.
#![tactic(auto)]

mod checks;
mod copies;
mod paths;
mod shapes;
mod walks;

pub use checks::{is_blocking, shape};
pub use copies::copy_platform;
pub use paths::has_path_to_memory;
pub use shapes::Shape;
