//! Laws of the walks of `may`.
ghost use Rattle.base_phases.specs.Laws.{RequestsBeginWhenFree, RoundsAreSequences, SequencesAreRounds, WalksBeginSequences};

/// What `may` allows from Free on, with one BEGIN_REQ at most, is the beginning of one of the eleven
/// sequences.
pub fn walks_begin_a_sequence()
    ensures { WalksBeginSequences }
{}

/// A BEGIN_REQ is allowed only on a free lane: no transaction begins again before it has ended.
pub fn requests_begin_on_a_free_lane()
    ensures { RequestsBeginWhenFree }
{}

/// Each of the eleven sequences is a walk from Free to Free that is not Free in between.
pub fn sequences_are_rounds()
    ensures { SequencesAreRounds }
{}

/// There are no other such walks.
pub fn rounds_are_sequences()
    ensures { RoundsAreSequences }
{}
