//! Laws of rounds, and of the entries of blocking and direct initiators.
ghost use Rattle.plat_core.specs.NetRuns.{PartIsEnough};
ghost use Rattle.plat_core.specs.Rounds.{RoundsOfAll};

/// Where all entries are those of blocking or direct initiators, a history keeps the rounds where these entries do.
pub fn rounds_of_all()
    ensures { RoundsOfAll }
{}

/// In a sound history what a blocking or direct initiator asks for, whether its script has ended and the round of its next
/// entry are told by the entries of such initiators alone.
pub fn part_is_enough()
    ensures { PartIsEnough }
{}
