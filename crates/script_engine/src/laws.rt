//! Laws over the definitions: an engine's steps go through what its script asks for, in order.
ghost use Rattle.script_engine.specs.Laws.{BeginsAtTheStart, EndsWithNothingLeft, FillsWhatIsNext, IsToldInOrder, PassesInOrder};

/// A new engine is to ask for all that its script asks for.
pub fn engines_begin_at_the_start()
    ensures { BeginsAtTheStart }
{}

/// What passes without a reply asks for its request alone, and leaves the rest.
pub fn engines_pass_in_order()
    ensures { PassesInOrder }
{}

/// An access with a reply asks for its request alone, and leaves what a history asks for that has this
/// reply.
pub fn engines_are_told_in_order()
    ensures { IsToldInOrder }
{}

/// Where the script has ended, nothing is left.
pub fn engines_end_with_nothing_left()
    ensures { EndsWithNothingLeft }
{}

/// The payload is that of what is next, under the next sequence number; one that is plain has no byte
/// enables and does not stream.
pub fn engines_fill_what_is_next()
    ensures { FillsWhatIsNext }
{}
