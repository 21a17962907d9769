// When a job that can't go on is to be given a turn all the same.

/// How often a job was passed over since its last turn.
#[derive(Drop)]
pub(crate) struct Waits {
    passes: u32,
}

// A job that can't go on is tried all the same once it was passed over so often. So what tells that it can needs no proof.
const PASSES: u32 = 1000;

impl Waits {
    /// Those of a job that has had no turn yet.
    pub(crate) fn none() -> Waits {
        Waits { passes: 0 }
    }

    /// Whether the job is to be passed over, by whether it may go on.
    pub(crate) fn rests(&mut self, may_move: bool) -> bool {
        let rests = !may_move && self.passes < PASSES;
        self.passes = if rests { self.passes + 1 } else { 0 };
        rests
    }
}
