// How a run ended.
use crate::merge::MergedLog;
use tlm_model::Rows;
use tlm_types::{Bytes, EndOf};

/// How a run ended: its history, the bytes of each memory, how each initiator ended, and whether all
/// initiators have finished. The end of one that hasn't is told as far as it has come.
pub struct Outcome {
    pub history: MergedLog,
    pub stores: Rows<Bytes>,
    pub ends: Rows<EndOf>,
    pub complete: bool,
}

// Written out, so that the crates above call it: how each part is let go of is proved here alone.
impl Drop for Outcome {
    fn drop(self) {
        let Outcome {
            history: _,
            stores: _,
            ends: _,
            complete: _,
        } = self;
    }
}
