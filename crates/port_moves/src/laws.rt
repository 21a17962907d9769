//! What a port keeps while others make entries.
ghost use Rattle.port_moves.specs.Laws.{PortKnowsMore};

/// A port by one note is one by any note of its history that knows more.
pub fn port_knows_more()
    ensures { PortKnowsMore }
{}
