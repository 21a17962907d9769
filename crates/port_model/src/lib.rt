//! What a four-phase initiator knows and holds between any two of its moves, and what it hands in once it has finished.
//!
//! - `specs/Stages`: how far each request has come, and what it has taken from the wallet; `specs/Issues`: times of issue of what
//!   an engine is still to ask for; `specs/Closings`: what it tells of the grants that its invalidations end; `specs/Way`: the
//!   state of a port under way.
//! - `specs/Laws`: what each move keeps; `specs/Ends`: what a port that has finished hands in, and how its initiator ended.
//!
//! Nothing here runs: each function carries a law.
#![tactic(auto)]

ghost use Rattle.port_model.specs.Issues.{IssuesInOrder};
ghost use Rattle.port_model.specs.Ends.{EndsAreTheirs, PortsHandIn, RepliesAreOwn};
ghost use Rattle.port_model.specs.Laws.{Begins, HasPlanned, IsPriced, KeepsStray, KnowsMore, PassesInvalidation, PassesItsWay, PassesPause, ReadsDebug, RepliesAnswer, ReturnsFenced, ReturnsPlain, Settles, TakesFenced, TakesPlain};

/// Issue times go through the script as the engine does.
pub fn issues_go_in_order()
    ensures { IssuesInOrder }
{}

/// A port that knows more is where it was: an Acquire, a call, a refused try and a fetch in vain leave no more to it.
pub fn more_is_known()
    ensures { KnowsMore }
{}

/// A plain access is taken, and the engine passes it.
pub fn plain_accesses_are_taken()
    ensures { TakesPlain }
{}

/// An access that the engine waits for is taken, once nothing is outstanding and the time is settled.
pub fn fenced_accesses_are_taken()
    ensures { TakesFenced }
{}

/// A payload of no access that is away is put back.
pub fn stray_payloads_are_put_back()
    ensures { KeepsStray }
{}

/// A plain access has come back.
pub fn plain_accesses_come_back()
    ensures { ReturnsPlain }
{}

/// The access that the engine waits for has come back, and is told.
pub fn fenced_accesses_are_told()
    ensures { ReturnsFenced }
{}

/// A port whose script has ended, and of which nothing is away, hands in all that the end of a run wants of it.
pub fn finished_ports_hand_in()
    ensures { PortsHandIn }
{}

/// A port begins with its script and its share.
pub fn ports_begin()
    ensures { Begins }
{}

/// The tickets of what is next are there.
pub fn planned_tickets_are_there()
    ensures { HasPlanned }
{}

/// The time is settled, once nothing is outstanding.
pub fn times_are_settled()
    ensures { Settles }
{}

/// A wait, a sync or a fence is passed.
pub fn pauses_are_passed()
    ensures { PassesPause }
{}

/// Once all have finished, the replies that a port went by are its own.
pub fn replies_are_their_own()
    ensures { RepliesAreOwn }
{}

/// How a port's initiator ended is what the whole history says.
pub fn ends_are_those_of_the_history()
    ensures { EndsAreTheirs }
{}

/// An invalidation is made and passed, with the closings that it has brought, or without a route.
pub fn invalidations_are_passed()
    ensures { PassesInvalidation }
{}

/// A debug read is made and passed, with a route or without.
pub fn debug_reads_are_made()
    ensures { ReadsDebug }
{}

/// The price of what is next is that of its address.
pub fn tickets_are_those_of_the_address()
    ensures { IsPriced }
{}

/// An access that was made passes the way of its address.
pub fn accesses_pass_their_ways()
    ensures { PassesItsWay }
{}

/// The reply that came back answers the access that the engine waits for.
pub fn replies_answer_what_is_waited_for()
    ensures { RepliesAnswer }
{}
