//! From initiators that have finished to the points of grants of the whole history (IEEE 1666-2011, clause 11.2).

ghost use Rattle.net_end.specs.GrantLaws.{ClosedHasGrants, DoneHasGrants};

/// Where all initiators have finished, by their styles, those that aren't four-phase with their grants and their
/// invalidations, and all objects are done with, the history has the points of grants, and those of the end.
pub fn done_initiators_have_grants()
    ensures { DoneHasGrants }
{}

/// Where all initiators have finished, those that aren't four-phase with their grants and their invalidations, and
/// all objects of the net are taken apart, the closed history has the points of grants, and those of the end.
pub fn closed_histories_have_grants()
    ensures { ClosedHasGrants }
{}
