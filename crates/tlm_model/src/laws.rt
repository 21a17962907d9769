//! Laws over the definitions.
ghost use Rattle.tlm_model.specs.Laws.{HasRequestBeginnings};

/// Each beginning of a history that has the points of requests has them: a history may be read as it grows, an
/// entry at a time.
pub fn beginnings_keep_requests()
    ensures { HasRequestBeginnings }
{}
