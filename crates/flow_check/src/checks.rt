//! Programs that check short four-phase histories.
ghost use Rattle.std.specs.Prelude.{◌≡◌, max, [], ◌∷◌};
ghost use Rattle.tlm_types.specs.declared.words.Phase.TheVariants.{BeginReq, EndReq, BeginResp, EndResp};
ghost use Rattle.tlm_types.specs.declared.words.TlmSync.TheVariants.{Accepted, Updated, Completed};
ghost use Rattle.tlm_types.specs.declared.words.RespMode.TheVariants as Resp;
ghost use Rattle.tlm_model.specs.Route.{later};
ghost use Rattle.flow_model.specs.Board.{ends_response};
ghost use Rattle.flow_model.specs.ByRules.{response_end, response_end_by};
ghost use Rattle.flow_model.specs.Table.{ending};
ghost use Rattle.flow_model.specs.World.{row_by};
ghost use Rattle.flow_check.specs.Checks.{RowsAreFound, WholesAreFound, begins_row, is_ending, is_prefix, is_whole};

use tlm_types::{Entry, Phase, Ps, ReqMode, RespMode, TlmSync, What};

/// How a component with this mode answers BEGIN_REQ. A router that has no window for the address
/// (`is_refused`) answers as a memory whose response implies END_REQ.
pub fn row_of(mode: ReqMode, is_refused: bool) -> ReqMode
    ensures { result ≡ row_by is_refused mode }
{
    match (is_refused, mode) {
        (true, ReqMode::Accept) => ReqMode::Short,
        (_, mode) => mode,
    }
}

// Whether these calls are a prefix of those from BEGIN_RESP on.
fn begins_ending(response: RespMode, calls: &[(Phase, TlmSync)]) -> bool
    ensures { result ≡ is_prefix (ending response) calls.now }
{
    match response {
        RespMode::Accept => begins_called(calls),
        RespMode::EndResp => begins_updated(calls),
        RespMode::Complete => begins_completed(calls),
    }
}

fn begins_called(calls: &[(Phase, TlmSync)]) -> bool
    ensures { result ≡ is_prefix (ending Resp.Accept) calls.now }
{
    match calls {
        [] => true,
        [(Phase::BeginResp, TlmSync::Accepted)] => true,
        [
            (Phase::BeginResp, TlmSync::Accepted),
            (Phase::EndResp, TlmSync::Completed),
        ] => true,
        _ => false,
    }
}

fn begins_updated(calls: &[(Phase, TlmSync)]) -> bool
    ensures { result ≡ is_prefix (ending Resp.EndResp) calls.now }
{
    match calls {
        [] => true,
        [(Phase::BeginResp, TlmSync::Updated(Phase::EndResp))] => true,
        _ => false,
    }
}

fn begins_completed(calls: &[(Phase, TlmSync)]) -> bool
    ensures { result ≡ is_prefix (ending Resp.Complete) calls.now }
{
    match calls {
        [] => true,
        [(Phase::BeginResp, TlmSync::Completed)] => true,
        _ => false,
    }
}

// The row of a memory that completes the access.
fn begins_complete(calls: &[(Phase, TlmSync)]) -> bool
    ensures { result ≡ is_prefix ((BeginReq, Completed) ∷ []) calls.now }
{
    match calls {
        [] => true,
        [(Phase::BeginReq, TlmSync::Completed)] => true,
        _ => false,
    }
}

// The row of a memory that gives its response with its answer, where no response is open.
fn begins_by_return(calls: &[(Phase, TlmSync)]) -> bool
    ensures { result ≡ is_prefix ((BeginReq, Updated BeginResp) ∷ (EndResp, Completed) ∷ []) calls.now }
{
    match calls {
        [] => true,
        [(Phase::BeginReq, TlmSync::Updated(Phase::BeginResp))] => true,
        [
            (Phase::BeginReq, TlmSync::Updated(Phase::BeginResp)),
            (Phase::EndResp, TlmSync::Completed),
        ] => true,
        _ => false,
    }
}

// The row of a component that ends the request with its answer.
fn begins_at_once(response: RespMode, calls: &[(Phase, TlmSync)]) -> bool
    ensures { result ≡ is_prefix ((BeginReq, Updated EndReq) ∷ ending response) calls.now }
{
    match calls {
        [] => true,
        [
            (Phase::BeginReq, TlmSync::Updated(Phase::EndReq)),
            rest @ ..,
        ] => begins_ending(response, rest),
        _ => false,
    }
}

// The row of a component whose response implies END_REQ.
fn begins_short(response: RespMode, calls: &[(Phase, TlmSync)]) -> bool
    ensures { result ≡ is_prefix ((BeginReq, Accepted) ∷ ending response) calls.now }
{
    match calls {
        [] => true,
        [(Phase::BeginReq, TlmSync::Accepted), rest @ ..] => begins_ending(response, rest),
        _ => false,
    }
}

// The row of a component that makes END_REQ.
fn begins_accept(response: RespMode, calls: &[(Phase, TlmSync)]) -> bool
    ensures { result ≡ is_prefix ((BeginReq, Accepted) ∷ (EndReq, Accepted) ∷ ending response) calls.now }
{
    match calls {
        [] => true,
        [(Phase::BeginReq, TlmSync::Accepted)] => true,
        [
            (Phase::BeginReq, TlmSync::Accepted),
            (Phase::EndReq, TlmSync::Accepted),
            rest @ ..,
        ] => { begins_ending(response, rest) }
        _ => false,
    }
}

/// Whether a transaction's calls on a hop, so far, are the beginning of a sequence that a component with
/// this row below and an initiator with this response above make.
pub fn begins_row(row: ReqMode, response: RespMode, calls: &[(Phase, TlmSync)]) -> bool
    ensures { result ≡ begins_row row response calls.now }
{
    match row {
        ReqMode::Accept => begins_accept(response, calls),
        ReqMode::Short => begins_short(response, calls),
        ReqMode::EndReq => begins_at_once(response, calls),
        ReqMode::BeginResp => begins_by_return(calls) || begins_at_once(response, calls),
        ReqMode::Complete => begins_complete(calls),
    }
}

/// The time at which a component below a hop has its response: BEGIN_REQ's time and its latency, in
/// picoseconds. It stands still at the greatest `u64`.
pub fn up_time(request: Ps, latency: Ps) -> Ps
    ensures { result ≡ later request latency }
{
    request.saturating_add(latency)
}

/// The time of BEGIN_RESP on a hop: the greatest of the time at which the response is there, that of the
/// transaction's last call on the hop, and that at which the hop's responses have ended.
pub fn response_time(up: Ps, last: Ps, response_end: Ps) -> Ps
    ensures { result ≡ max (max up last) response_end }
{
    up.max(last).max(response_end)
}

// Whether a call ends a response.
fn ends_response(phase: Phase, answer: TlmSync) -> bool
    ensures { result ≡ ends_response phase answer }
{
    match (phase, answer) {
        (Phase::EndResp, _) => true,
        (Phase::BeginResp, TlmSync::Accepted) => false,
        (Phase::BeginResp, _) => true,
        _ => false,
    }
}

// The greatest time of an ended response, after an entry of the hop.
fn response_end_after(end: Ps, entry: &Entry) -> Ps
    ensures { result ≡ response_end_by end entry.now.time entry.now.what }
{
    match &entry.what {
        What::Call { phase, answer } if ends_response(*phase, *answer) => end.max(entry.time),
        _ => end,
    }
}

/// The greatest time of a call in a hop's log that ended a response, or 0.
pub fn response_end(log: &[Entry]) -> Ps
    ensures { result ≡ response_end log.now }
{
    let mut end = 0;
    for entry in log {
        end = response_end_after(end, entry);
    }
    end
}

/// The tests of rows find what the definitions say.
pub fn rows_are_found()
    ensures { RowsAreFound }
{}

/// The test of whole sequences finds what the definitions say.
pub fn wholes_are_found()
    ensures { WholesAreFound }
{}

/// Whether a transaction's calls on a hop are a whole sequence.
pub fn is_whole(calls: &[(Phase, TlmSync)]) -> bool
    ensures { result ≡ is_whole calls.now }
{
    use Phase::{BeginReq, BeginResp, EndReq, EndResp};
    use TlmSync::{Accepted, Completed, Updated};
    match calls {
        [(BeginReq, Completed)] => true,
        [(BeginReq, Updated(BeginResp)), (EndResp, Completed)] => true,
        [(BeginReq, Accepted), (EndReq, Accepted), rest @ ..] => is_ending(rest),
        [(BeginReq, Accepted | Updated(EndReq)), rest @ ..] => is_ending(rest),
        _ => false,
    }
}

// Whether these calls are one of the three endings.
fn is_ending(calls: &[(Phase, TlmSync)]) -> bool
    ensures { result ≡ is_ending calls.now }
{
    use Phase::{BeginResp, EndResp};
    use TlmSync::{Accepted, Completed, Updated};
    match calls {
        [(BeginResp, Accepted), (EndResp, Completed)] => true,
        [(BeginResp, Updated(EndResp) | Completed)] => true,
        _ => false,
    }
}

/// Whether a router may make END_RESP on the hop below, by the transaction's calls on the hop above: only
/// once the transaction has ended there.
pub fn may_end_below(above: &[(Phase, TlmSync)]) -> bool
    ensures { result ≡ is_whole above.now }
{
    is_whole(above)
}
