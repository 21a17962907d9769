//! Small four-phase histories, and slow programs that check them (IEEE 1666-2011, clause 15.2).
//!
//! - `checks` tests a transaction's calls on a hop against the sequences that the components at its ends
//!   make, and computes the times of responses. Each function meets the definition that it computes.
//! - `worked` has whole histories that are right, `wrong` has histories that miss a point by one entry
//!   that is swapped, left out, doubled or re-timed.
//! - `counted` has what plans of four-phase accesses may add to each object at most.
//! - `reported` has the reports of such histories, with the ends of four-phase initiators and what was refused to them.
//! - `silent` has histories that break a premise of the law on which the standard is silent, and miss a
//!   conclusion.
#![tactic(auto)]

pub mod checks;
pub mod counted;
pub mod reported;
pub mod silent;
pub mod worked;
pub mod wrong;
