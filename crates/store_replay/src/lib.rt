//! The bytes of all memories after a history, made anew of its entries.
//!
//! - `OpeningStores` are the bytes of all memories of a platform before the first entry. `after` goes through a history
//!   that is in store, and does what each access did.
//!
//! Promises: the bytes are those that the definitions give (`last_store` of `tlm_model`; `stores_are_those_after` says so of
//! what `after` promises), whatever the history is. The only error is want of memory.
#![tactic(auto)]

mod accesses;
mod laws;
mod replay;

pub use laws::stores_are_those_after;
pub use replay::OpeningStores;
