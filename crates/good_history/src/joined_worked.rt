//! A run of two initiators, made by hand.
ghost use Rattle.good_history.specs.JoinedWorked.{MeetingIsGood};

/// The history of two initiators that meet at a memory is good by their own parts.
pub fn meeting_is_good()
    ensures { MeetingIsGood }
{}
