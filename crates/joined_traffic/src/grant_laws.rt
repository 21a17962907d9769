//! From the parts of a history to the whole.
ghost use Rattle.joined_traffic.specs.Exact.{PointsTellParts, WorkedHaveParts};
ghost use Rattle.joined_traffic.specs.GateLog.{GivesAsManyGates, GivesNoOtherGates};
ghost use Rattle.joined_traffic.specs.Growing.{GateHasOneGrant, OwnGrantsGrow, OwnGrantsStand};
ghost use Rattle.joined_traffic.specs.GrantLaws.{PartsEndGrants, PartsKeepGrants, PartsMakeGood, PartsMakeSound};
ghost use Rattle.joined_traffic.specs.Returning.{PlacesTellReturn, ReturnStays};

/// A joined history has the points of grants.
pub fn joined_histories_keep_grants()
    ensures { PartsKeepGrants }
{}

/// A joined history has the points of grants at the end, where each initiator has ended.
pub fn joined_histories_end_grants()
    ensures { PartsEndGrants }
{}

/// Where no initiator has four phases, such a history is sound, and good, whichever of its initiators are direct.
pub fn joined_histories_with_grants_are_good()
    ensures sound { PartsMakeSound }
    ensures good { PartsMakeGood }
{}

/// The places of a memory's log tell that an invalidation has returned.
pub fn places_tell_returns()
    ensures returned { PlacesTellReturn }
    ensures stays { ReturnStays }
{}

/// What an initiator tells of grants grows by what it owes for each own entry, and stands as the history grows.
pub fn own_grants_grow()
    ensures grow { OwnGrantsGrow }
    ensures stand { OwnGrantsStand }
{}

/// A gate has one grant.
pub fn gates_have_one_grant()
    ensures { GateHasOneGrant }
{}

/// The parts ask for no more than the points, and the runs that were made by hand have them.
pub fn points_tell_parts()
    ensures parts { PointsTellParts }
    ensures worked { WorkedHaveParts }
{}

/// A memory that gives its gates in turn has given as many as it has grants.
pub fn gates_are_given_in_turn()
    ensures many { GivesAsManyGates }
    ensures others { GivesNoOtherGates }
{}
