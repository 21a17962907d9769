//! Laws of a hop's log.
ghost use Rattle.flow_model.specs.Laws.{EndedLivesAreWhole, EndedTransactionsAreWhole, LanesHaveBegun, LivesFollowPhases, LogsAreExclusive, LogsFollowModes, LogsFollowPhases, LogsKeepRules, RowsAreSequences};

/// Where no transaction begins twice, the calls of each are a prefix of one of the eleven sequences.
pub fn logs_follow_phases()
    ensures { LogsFollowPhases }
{}

/// Where no transaction begins twice, the calls of each are a prefix of a sequence that the modes of the two
/// ends make.
pub fn logs_follow_modes()
    ensures { LogsFollowModes }
{}

/// Where no transaction begins twice, no BEGIN_REQ stands while a request is open, no response begins
/// while one is open, and no more transactions are under way than the hop has lanes.
pub fn logs_are_exclusive()
    ensures { LogsAreExclusive }
{}

/// Where no transaction begins twice, each call has the answer of the modes of the two ends, and a time by
/// the calls before it: BEGIN_REQ at least that of the last call that ended a request, BEGIN_RESP at least
/// those of all calls that ended a response, and each call at least that of its transaction's last one.
pub fn logs_keep_rules()
    ensures { LogsKeepRules }
{}

/// Where no transaction begins twice, the calls of one that has no lane are a whole sequence, or none.
pub fn ended_transactions_are_whole()
    ensures { EndedTransactionsAreWhole }
{}

/// Each lane has the position and the transaction of a BEGIN_REQ in the log.
pub fn lanes_have_begun()
    ensures { LanesHaveBegun }
{}

/// The calls of one lane, from its BEGIN_REQ on, are a prefix of one of the eleven sequences, also where
/// a transaction begins twice.
pub fn lives_follow_phases()
    ensures { LivesFollowPhases }
{}

/// Those of a lane that has ended are a whole sequence.
pub fn ended_lives_are_whole()
    ensures { EndedLivesAreWhole }
{}

/// Each sequence that the modes of the two ends make is one of the eleven.
pub fn rows_are_sequences()
    ensures { RowsAreSequences }
{}
