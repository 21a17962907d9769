//! Right histories: each entry is backed by those before it, each hop and pool made its log, and the whole history is
//! good: it runs its script, has all the points of four-phase traffic, and has come to its end.
ghost use Rattle.tlm_types.specs.declared.words.ReqMode.TheVariants as Req;
ghost use Rattle.tlm_types.specs.declared.words.RespMode.TheVariants as Resp;
ghost use Rattle.flow_check.specs.Reported.{overlapping, overlapping_plan};
ghost use Rattle.flow_check.specs.Worked.{IsWorked, accepting, answering, completing, ending, lone, refused, refused_plan, routed, routed_plan};

/// The memory accepts the request, and the initiator the response: four calls.
pub fn accepts_with_four_calls()
    ensures { IsWorked (lone Req.Accept Resp.Accept) accepting }
{}

/// The memory completes the access with its answer to BEGIN_REQ.
pub fn completes_at_once()
    ensures { IsWorked (lone Req.Complete Resp.Accept) completing }
{}

/// The memory gives its response with its answer to BEGIN_REQ.
pub fn responds_by_return()
    ensures { IsWorked (lone Req.BeginResp Resp.Accept) answering }
{}

/// The memory ends the request with its answer, and the initiator the response.
pub fn ends_by_return()
    ensures { IsWorked (lone Req.EndReq Resp.EndResp) ending }
{}

/// A router refuses an address for which it has no window.
pub fn router_refuses()
    ensures { IsWorked refused_plan refused }
{}

/// An access passes two routers.
pub fn passes_two_routers()
    ensures { IsWorked routed_plan routed }
{}

/// Two writes that are under way at once.
pub fn writes_overlap()
    ensures { IsWorked overlapping_plan overlapping }
{}
