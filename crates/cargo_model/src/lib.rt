//! What known entries say of a payload on its way: why a thread may trust one that another handed on
//! through a hop (IEEE 1666-2011, clauses 14.5 and 15.2).
//!
//! - `specs/Travel` has the definition, `IsVouched`: whose the payload is, what it asks for or was
//!   answered, which entries are known, and which tickets are left.
//! - `specs/Counts` says how many calls an access makes on a hop, `specs/Tickets` what a wallet has,
//!   `specs/Stops` where an access has come to, `specs/Known` how the entries of the history are read.
//! - `specs/Laws` has what each step of an initiator, a router and a memory keeps.
//!
//! `Cargo` is what a hop carries. Nothing else here runs: each function carries a law.
#![tactic(auto)]

ghost use Rattle.cargo_model.specs.Counts.{CountLaw};
ghost use Rattle.cargo_model.specs.Modes.{AreByModes};
ghost use Rattle.cargo_model.specs.Worked.{StartsSomewhere};
ghost use Rattle.cargo_model.specs.Origins.{ApartLaw, AskedLaw, ThereLaw};
ghost use Rattle.cargo_model.specs.Stops.{HopsLaw, WaysLaw};
ghost use Rattle.cargo_model.specs.Laws.{AccessBacked, AccessPaid, AcquireBacked, AcquirePaid, AnswersFit, Arrives, Ascends, BackKnows, Begins, BeginsBacked, BeginsPaid, BeginsRefused, CallsCount, Case, Descends, EndReqBacked, EndReqPaid, EndRespBacked, EndRespPaid, Ends, Fetches, FirstBacked, MoreBack, MoreVouch, Refuses, ReleaseBacked, Responds, RespondsBacked, RespondsPaid, RespondsRefused, Returns, Serves, Starts, TakeBacked};

mod cargo;

pub use cargo::Cargo;

/// More entries vouch for no less.
pub fn more_vouch()
    ensures { MoreVouch }
{}

/// More entries back no less.
pub fn more_back()
    ensures { MoreBack }
{}

/// The row of the table and the answer of BEGIN_REQ fix how many calls an access makes on a hop.
pub fn count_law()
    ensures { CountLaw }
{}

/// A hop gives the answers that the row has.
pub fn answers_fit()
    ensures { AnswersFit }
{}

/// Known calls of a whole sequence are so many as the row and a known answer of BEGIN_REQ say.
pub fn calls_are_counted()
    ensures { (s : Case) → CallsCount s }
{}

/// Each Take of a four-phase access is backed.
pub fn take_is_backed()
    ensures { (s : Case) → TakeBacked s }
{}

/// The first Acquire is backed by the Take.
pub fn first_acquire_is_backed()
    ensures { (s : Case) → FirstBacked s }
{}

/// An access that was taken, with its first reference and its planned tickets, may go down on its first
/// hop.
pub fn access_starts()
    ensures { (s : Case) → Starts s }
{}

/// On the way down there is a ticket for BEGIN_REQ.
pub fn begin_req_is_paid()
    ensures { (s : Case) → BeginsPaid s }
{}

/// What is known of an access that may go down backs its BEGIN_REQ.
pub fn begin_req_is_backed()
    ensures { (s : Case) → BeginsBacked s }
{}

/// Once that ticket was pulled, known entries vouch for what the hop carries.
pub fn begin_req_is_vouched()
    ensures { (s : Case) → Begins s }
{}

/// Where the hop refuses and the ticket was put back, all is as before.
pub fn refused_begin_req_is_kept()
    ensures { (s : Case) → BeginsRefused s }
{}

/// A router has a ticket for the next Acquire.
pub fn acquire_is_paid()
    ensures { (s : Case) → AcquirePaid s }
{}

/// What a router knows of a fetched request backs the next Acquire.
pub fn acquire_is_backed()
    ensures { (s : Case) → AcquireBacked s }
{}

/// Who fetched a request has a ticket for END_REQ.
pub fn end_req_is_paid()
    ensures { (s : Case) → EndReqPaid s }
{}

/// END_REQ is backed where the row has one: at a router once the request has gone on.
pub fn end_req_is_backed()
    ensures { (s : Case) → EndReqBacked s }
{}

/// A router's fetched request may go down on the next hop, with the next reference, the address behind
/// the window, and without the ticket of the END_REQ that is owed above.
pub fn access_descends()
    ensures { (s : Case) → Descends s }
{}

/// A memory has a ticket for the Access and for the bytes that it logs.
pub fn access_is_paid()
    ensures { (s : Case) → AccessPaid s }
{}

/// BEGIN_REQ on the last hop backs the Access.
pub fn access_is_backed()
    ensures { (s : Case) → AccessBacked s }
{}

/// A served access may go up on its last hop.
pub fn access_is_served()
    ensures { (s : Case) → Serves s }
{}

/// An access for which a router has no window may go up from there, with ADDRESS_ERROR.
pub fn access_is_refused()
    ensures { (s : Case) → Refuses s }
{}

/// On the way up there is a ticket for BEGIN_RESP.
pub fn begin_resp_is_paid()
    ensures { (s : Case) → RespondsPaid s }
{}

/// What is known of an access that may go up backs its BEGIN_RESP.
pub fn begin_resp_is_backed()
    ensures { (s : Case) → RespondsBacked s }
{}

/// Once that ticket was pulled, known entries vouch for what the hop carries.
pub fn begin_resp_is_vouched()
    ensures { (s : Case) → Responds s }
{}

/// Where the hop refuses and the ticket was put back, all is as before.
pub fn refused_begin_resp_is_kept()
    ensures { (s : Case) → RespondsRefused s }
{}

/// Who fetched a response and knows its BEGIN_RESP knows all calls of the hop but END_RESP.
pub fn fetched_response_is_back()
    ensures { (s : Case) → Fetches s }
{}

/// Who got a response with the answer of BEGIN_REQ knows all calls of the hop but END_RESP.
pub fn returned_response_is_back()
    ensures { (s : Case) → Returns s }
{}

/// A response that is back is known.
pub fn back_is_known()
    ensures { (s : Case) → BackKnows s }
{}

/// Who had the response back, and made the END_RESP that was owed, knows the end of the access on the
/// hop, and its time.
pub fn access_has_ended()
    ensures { (s : Case) → Ends s }
{}

/// There is a ticket for the END_RESP that is owed.
pub fn end_resp_is_paid()
    ensures { (s : Case) → EndRespPaid s }
{}

/// A router's response may go up on the hop above, without the tickets of the END_RESP that is owed
/// below and of the Release.
pub fn access_ascends()
    ensures { (s : Case) → Ascends s }
{}

/// END_RESP is backed once the access has ended above.
pub fn end_resp_is_backed()
    ensures { (s : Case) → EndRespBacked s }
{}

/// A Release is backed by the end of the access on its hop.
pub fn release_is_backed()
    ensures { (s : Case) → ReleaseBacked s }
{}

/// What is left of the tickets at the end: of each hop what the sequence didn't need, and nothing else.
pub fn access_arrives()
    ensures { (s : Case) → Arrives s }
{}

/// The answers in the log of a hop are those of its modes.
pub fn logged_answers_are_of_modes()
    ensures { AreByModes }
{}

/// Each hop of a way leads where the windows say.
pub fn ways_lead_on()
    ensures { WaysLaw }
{}

/// An access that its initiator asks for passes the way of its request.
pub fn asked_accesses_pass_their_ways()
    ensures { AskedLaw }
{}

/// The objects that an access adds entries to have different numbers.
pub fn objects_are_apart()
    ensures { ApartLaw }
{}

/// They are objects of the history, for an access of a four-phase initiator.
pub fn objects_are_there()
    ensures { ThereLaw }
{}

/// Each hop of a way is a hop to the component where the access comes to, with the response mode of
/// the component above.
pub fn hops_lead_to_stops()
    ensures { HopsLaw }
{}

/// The laws speak of something: a write on a platform of an initiator and a memory starts so.
pub fn write_starts()
    ensures { StartsSomewhere }
{}
