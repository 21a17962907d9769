// What stays as a note learns more, and what an invalidation adds.
ghost use Rattle.dmi_grants.specs.Revoking.{RevokingCanPay, RevokingGoesOn, RevokingIsTold};
ghost use Rattle.dmi_grants.specs.Table.{StayKnown, StaysUsable};
ghost use Rattle.dmi_grants.specs.Telling.{InvalidationAdds, InvalidationKeepsPoints};

/// As a note learns more, a grant by which accesses may be made stays one, and the grants that are held
/// stay known.
pub fn grants_stay_known()
    ensures usable { StaysUsable }
    ensures known { StayKnown }
{}

/// An invalidation adds its own entry and its closings to the own entries of its initiator, whatever its style
/// (IEEE 1666-2011, clause 11.2.6). Where these kept what a history of grants asks of them, they keep it with
/// the new ones, and the invalidation has returned.
pub fn invalidations_add_own_entries()
    ensures adds { InvalidationAdds }
    ensures keeps { InvalidationKeepsPoints }
{}

/// An invalidation that is under way stays so as its note learns more, since others may make entries between two of its own. Its
/// note knows that it was told, and where its tickets sufficed at its beginning, they suffice for what is left to close.
pub fn invalidations_go_on()
    ensures more { RevokingGoesOn }
    ensures told { RevokingIsTold }
    ensures pays { RevokingCanPay }
{}
