//! Laws of the points of grants.
ghost use Rattle.good_history.specs.GrantLaws.{HasGrantBeginnings, NothingIsClosed, UngrantedClosesNothing, UngrantedKeepsGrants};

/// Each beginning of a history that has the points of grants has them.
pub fn beginnings_keep_grants()
    ensures { HasGrantBeginnings }
{}

/// Where no initiator is direct and no gate is closed, the points of grants hold.
pub fn histories_without_grants()
    ensures { UngrantedKeepsGrants }
{}

/// No gate is closed where no script invalidates, and none where no initiator is direct: nobody was given one.
pub fn nothing_is_closed()
    ensures unasked { NothingIsClosed }
    ensures ungranted { UngrantedClosesNothing }
{}
