// BEGIN_RESP.
ghost use Rattle.std.specs.Prelude.{◌≡◌, ◌⊎◌, true, false};
ghost use Rattle.std.specs.List.{list_any};
ghost use Rattle.base_phases.specs.declared.phases.LaneState.TheVariants.{Requested, Waiting};
ghost use Rattle.hop_object.specs.Lanes.{any_responding, has_leg};

use crate::answer::{
    mark_of, request_end_responded, response_answer, response_end_responded, state_by,
};
use crate::call::{Leg, Responded};
use crate::hop::Hop;
use crate::lane::{any_responding, change, let_go, responder};
use crate::legs::redeem;
use log_items::BriefEvent;
use tlm_types::{Head, ObjectNo, Phase, Ps};
use token_book::Tokens;

impl<T> Hop<T> {
    ghost use Rattle.hop_object.specs.Hops.{IsLegOf, MayCall};
    ghost use Rattle.hop_object.specs.Calls.{AnswersResponse, Responds};

    /// BEGIN_RESP by a leg whose lane is Requested or Waiting. Busy comes exactly where another lane is
    /// Responding, and changes nothing. Else the entry's time is the greatest of `at`, the time of the
    /// lane's last call, and those of all calls that ended a response.
    #[inline(always)]
    pub fn begin_resp(
        &mut self,
        tokens: &Tokens,
        position: u64,
        leg: Leg,
        at: Ps,
        item: T,
    ) -> Responded<T>
        requires tokens { self.old.book.table ≡ tokens.now }
        requires leg { IsLegOf self.old leg Requested ⊎ IsLegOf self.old leg Waiting }
        requires may { list_any (has_leg leg.name) self.old.lanes ≡ true → any_responding self.old.lanes ≡ false → MayCall self.old position }
        ensures { AnswersResponse self.old leg position at item self.new result }
    {
        if any_responding(&self.lanes) {
            return Responded::Busy {
                holder: responder(&self.lanes).unwrap(),
                leg,
                item,
            };
        }
        self.respond(tokens, position, leg, at, item)
    }

    // A BEGIN_RESP that is taken.
    #[inline(always)]
    fn respond(&mut self, tokens: &Tokens, position: u64, leg: Leg, at: Ps, item: T) -> Responded<T>
        requires tokens { self.old.book.table ≡ tokens.now }
        requires leg { IsLegOf self.old leg Requested ⊎ IsLegOf self.old leg Waiting }
        requires may { list_any (has_leg leg.name) self.old.lanes ≡ true → MayCall self.old position }
        requires turn { any_responding self.old.lanes ≡ false }
        ensures { Responds self.old leg position at item self.new result }
    {
        let index = redeem(tokens, &mut self.book, &self.lanes, leg);
        let lane = &self.lanes[index];
        let txn = lane.txn;
        let state = lane.state;
        let early = at.max(lane.last);
        let time = early.max(self.response_end);
        let answer = response_answer(self.traits.resp);
        let head = Head {
            position,
            object: ObjectNo::Hop(self.number),
            txn,
            time,
        };
        let event = BriefEvent::of_call(Phase::BeginResp, answer);
        self.log.push(head, event, mark_of(state));
        self.request_end = request_end_responded(self.request_end, state, answer, time);
        self.response_end = response_end_responded(self.response_end, answer, time);
        let next = state_by(answer);
        let was = change(&mut self.lanes, index, next, time, position, Some(item));
        let_go(was);
        Responded::Sent { answer, at: time }
    }
}
