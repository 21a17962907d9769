// What a port works on, and what a move of it comes to.
ghost use Rattle.std.specs.Prelude.{◌≡◌, true, false, Some, None};
ghost use Rattle.port_moves.specs.Moved.{response_hand};

use cargo_model::Cargo;
use hop_object::Leg;
use payload_pool::Baton;
use tlm_types::Ps;
use token_book::Ticket;

/// What a port works on between two moves: an access on its way down to the first hop, or one that is
/// back from there. Times are in picoseconds.
#[derive(Drop)]
pub enum Hand {
    /// Nothing.
    Free,
    /// A payload that was taken and filled, with the tickets of its access. Its first reference is still
    /// to be acquired.
    Taken(Baton),
    /// A request that may go down, and was not tried yet.
    Acquired(Cargo),
    /// A request whose BEGIN_REQ, at this time, brings the response by return. Its memory is still to be
    /// called. The leg is that of END_RESP, where it is owed.
    Begun {
        cargo: Cargo,
        at: Ps,
        leg: Option<Leg>,
    },
    /// A response that is back. END_RESP is owed, by this leg and not before this time.
    Owed {
        cargo: Cargo,
        leg: Leg,
        at: Ps,
    },
    /// An access that has ended on the first hop at this time. The reference of that hop is still to be
    /// released.
    Ended {
        cargo: Cargo,
        end: Ps,
    },
    /// The port has taken the access back, with the tickets that it didn't need. Its payload is still to be
    /// stowed, with this ticket.
    Released {
        baton: Baton,
        ticket: Ticket,
        end: Ps,
    },
}

impl Hand {
    // A response that is back: END_RESP may be made at this time where there is a leg for it, and else the access has ended then.
    pub(crate) fn of_response(leg: Option<Leg>, cargo: Cargo, at: Ps) -> Hand
        ensures { result ≡ response_hand leg cargo at }
    {
        match leg {
            Some(leg) => Hand::Owed { cargo, leg, at },
            None => Hand::Ended { cargo, end: at },
        }
    }
}

/// What a pump has done.
#[derive(Clone, Copy, Debug, PartialEq, Eq)]
pub enum Pumped {
    /// It has moved on.
    Did,
    /// There was nothing that it could do.
    Nothing,
    /// The script has ended, nothing is outstanding, and no slot of the pool is live.
    Finished,
}

/// What a move has come to: whether it made an entry, and how its pump ends, where it ends with it.
#[derive(Clone, Copy, Debug, PartialEq, Eq)]
pub struct Moved {
    pub entry: bool,
    pub pumped: Option<Pumped>,
}

impl Moved {
    /// An entry was made, and the pump goes on.
    pub fn made() -> Moved
        ensures { result ≡ record { entry = true; pumped = None } }
    {
        Moved {
            entry: true,
            pumped: None,
        }
    }

    // No entry was made, and the pump goes on.
    pub(crate) fn went() -> Moved
        ensures { result ≡ record { entry = false; pumped = None } }
    {
        Moved {
            entry: false,
            pumped: None,
        }
    }

    /// The pump ends.
    pub fn ends(entry: bool, pumped: Pumped) -> Moved
        ensures { result ≡ record { entry = entry; pumped = Some pumped } }
    {
        Moved {
            entry,
            pumped: Some(pumped),
        }
    }
}
