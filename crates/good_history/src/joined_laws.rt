//! From the parts of a history to the whole.
ghost use Rattle.good_history.specs.JoinedLaws.{JoinedEndsRequests, JoinedIsGood, JoinedIsSound, JoinedKeepsRequests, LogsMakeLastStore, LogsMakeStore, OwnIsEnough, OwnRequestsStand, OwnScriptsJoin, OwnTimesJoin};

/// What a history tells an initiator, its own entries tell it.
pub fn own_entries_are_enough()
    ensures { OwnIsEnough }
{}

/// What an initiator has asked for by its own entries stands in the history, whatever follows.
pub fn own_requests_stand()
    ensures { OwnRequestsStand }
{}

/// Where each initiator's own entries run the scripts and have the times of their requests, so does the history.
pub fn own_entries_join()
    ensures scripts { OwnScriptsJoin }
    ensures times { OwnTimesJoin }
{}

/// Where each memory's log is lawful, the history is that of one byte store, whose last bytes are those of the logs.
pub fn logs_make_a_store()
    ensures legal { LogsMakeStore }
    ensures last { LogsMakeLastStore }
{}

/// A joined history has the points of requests.
pub fn joined_histories_keep_requests()
    ensures { JoinedKeepsRequests }
{}

/// A joined history has the points of requests at the end, where each initiator has ended its script.
pub fn joined_histories_end_requests()
    ensures { JoinedEndsRequests }
{}

/// Where all initiators are blocking and no gate is closed, a joined history is sound. Four-phase and direct initiators
/// keep more than these parts: the crates above join theirs.
pub fn joined_histories_are_sound()
    ensures { JoinedIsSound }
{}

/// Such a history is good, where each initiator has ended its script.
pub fn joined_histories_are_good()
    ensures { JoinedIsGood }
{}
