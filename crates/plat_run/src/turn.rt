// What a turn of a job has come to.
ghost use Rattle.std.specs.Prelude.{◌≡◌, false};
ghost use Rattle.plat_run.specs.Turn.{is_held_back};

/// What a turn of a job has come to. Rounds are those of the board.
#[derive(Clone, Copy)]
pub enum JobTurn {
    /// The job went on, or has finished.
    WentOn,
    /// The job was the last to reach this round: others that were held back can go on.
    Opened { round: u64 },
    /// The job's last sync was not let through: all have reached this round, and the job waits for a later one.
    HeldBack { reached: u64 },
    /// The job was pumped, and there was nothing that it could do: it waits until another one has moved.
    Idle,
}

impl JobTurn {
    /// Whether the job's last sync was not let through.
    pub fn is_held_back(self) -> bool
        ensures { result ≡ is_held_back self }
    {
        matches!(self, JobTurn::HeldBack { .. })
    }

    // What this turn has come to, where it began with another sync that was let through.
    pub(crate) fn after(self, first: JobTurn) -> JobTurn
        requires { is_held_back first ≡ false }
        ensures { is_held_back result ≡ is_held_back self }
    {
        match self {
            JobTurn::WentOn => first,
            last => last,
        }
    }
}
