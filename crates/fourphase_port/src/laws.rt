//! What a port has for the access that is next.
ghost use Rattle.fourphase_port.specs.Pumps.{NothingHasLooked};
ghost use Rattle.fourphase_port.specs.Laws.{NextIsPaid, NextMayBeRead, NextMayBeStocked, NextMayStart};
ghost use Rattle.fourphase_port.specs.Stepped.{SteppedKnowsMore};

/// A port has all tickets and bytes of the access that is next.
pub fn next_may_be_stocked()
    ensures { NextMayBeStocked }
{}

/// With them it pays the price of the access, object by object.
pub fn next_is_paid()
    ensures { NextIsPaid }
{}

/// Once its payload was taken, filled and stocked, the access may start.
pub fn next_may_start()
    ensures { NextMayStart }
{}

/// The debug read that is next may be made.
pub fn next_may_be_read()
    ensures { NextMayBeRead }
{}

/// A pump that began with nothing in hand and answers `Nothing` has looked in vain for a response, and then
/// for what it waits.
pub fn nothing_has_looked()
    ensures { NothingHasLooked }
{}

/// A port that is stepped is by any note of its history what it is by one that knows less.
pub fn stepped_knows_more()
    ensures { SteppedKnowsMore }
{}
