// END_REQ and END_RESP.
ghost use Rattle.std.specs.Prelude.{◌≡◌, true};
ghost use Rattle.std.specs.List.{list_any};
ghost use Rattle.base_phases.specs.declared.phases.LaneState.TheVariants.{Requested, Responding};
ghost use Rattle.hop_object.specs.Lanes.{has_leg};

use crate::call::Leg;
use crate::hop::Hop;
use crate::lane::{change, let_go, take_out};
use crate::legs::{issue, redeem};
use base_phases::LaneState;
use log_items::BriefEvent;
use tlm_types::{Head, ObjectNo, Phase, Ps};
use token_book::Tokens;

impl<T> Hop<T> {
    ghost use Rattle.hop_object.specs.Hops.{IsLegOf, MayCall};
    ghost use Rattle.hop_object.specs.Calls.{EndsRequest, EndsResponse};

    /// END_REQ by a leg whose lane is Requested. It answers the leg, whose lane is then Waiting, and the
    /// entry's time: the greater of `at` and the time of the lane's last call.
    #[inline(always)]
    pub fn end_req(&mut self, tokens: &Tokens, position: u64, leg: Leg, at: Ps) -> (Leg, Ps)
        requires tokens { self.old.book.table ≡ tokens.now }
        requires leg { IsLegOf self.old leg Requested }
        requires may { list_any (has_leg leg.name) self.old.lanes ≡ true → MayCall self.old position }
        ensures { EndsRequest self.old leg position at self.new result.0 result.1 }
    {
        let index = redeem(tokens, &mut self.book, &self.lanes, leg);
        let lane = &self.lanes[index];
        let txn = lane.txn;
        let begun = lane.position;
        let time = at.max(lane.last);
        let head = Head {
            position,
            object: ObjectNo::Hop(self.number),
            txn,
            time,
        };
        let event = BriefEvent::Accepted {
            phase: Phase::EndReq,
        };
        self.log.push(head, event, 0);
        self.request_end = time;
        let next = LaneState::Waiting;
        let was = change(&mut self.lanes, index, next, time, position, None);
        let_go(was);
        let leg = issue(tokens, &mut self.book, begun, next);
        (leg, time)
    }

    /// END_RESP by a leg whose lane is Responding. It answers the entry's time: the greater of `at` and
    /// the time of the lane's last call.
    #[inline(always)]
    pub fn end_resp(&mut self, tokens: &Tokens, position: u64, leg: Leg, at: Ps) -> Ps
        requires tokens { self.old.book.table ≡ tokens.now }
        requires leg { IsLegOf self.old leg Responding }
        requires may { list_any (has_leg leg.name) self.old.lanes ≡ true → MayCall self.old position }
        ensures { EndsResponse self.old leg position at self.new result }
    {
        let index = redeem(tokens, &mut self.book, &self.lanes, leg);
        let lane = &self.lanes[index];
        let txn = lane.txn;
        let time = at.max(lane.last);
        let head = Head {
            position,
            object: ObjectNo::Hop(self.number),
            txn,
            time,
        };
        let event = BriefEvent::Completed {
            phase: Phase::EndResp,
        };
        self.log.push(head, event, 0);
        self.response_end = self.response_end.max(time);
        let was = take_out(&mut self.lanes, index);
        let_go(was);
        time
    }
}
