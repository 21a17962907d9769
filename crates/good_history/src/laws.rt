//! Laws over the whole definitions.
ghost use Rattle.good_history.specs.Laws.{DecoupledIsGood, DecoupledIsSound, HasSoundBeginnings, SoundIsDecoupled, SoundIsUngranted, UngrantedIsGood, UngrantedIsSound};

/// Each beginning of a sound history is sound: a history may be read as it grows, an entry at a time.
pub fn beginnings_are_sound()
    ensures { HasSoundBeginnings }
{}

/// Where no initiator has four phases, a sound history has no calls and no moves of pools.
pub fn sound_histories_are_decoupled()
    ensures { SoundIsDecoupled }
{}

/// Where no initiator has four phases, a history of accesses, grants, invalidations and closings alone is sound by its
/// points of requests and of grants.
pub fn decoupled_histories_are_sound()
    ensures { DecoupledIsSound }
{}

/// Without four-phase initiators a history is good by its points of requests and of grants, and those of the end.
pub fn decoupled_histories_are_good()
    ensures { DecoupledIsGood }
{}

/// Where no initiator is direct, a sound history closes no gate.
pub fn sound_histories_are_ungranted()
    ensures { SoundIsUngranted }
{}

/// Without direct initiators and closings the points of grants change nothing: a history is sound, and good, by its
/// points of requests and of four-phase traffic.
pub fn grants_change_nothing_elsewhere()
    ensures sound { UngrantedIsSound }
    ensures good { UngrantedIsGood }
{}
