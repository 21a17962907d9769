// BEGIN_REQ.
ghost use Rattle.std.specs.Prelude.{◌≡◌, ◌<◌, true, false, Some, None};
ghost use Rattle.tlm_types.specs.declared.words.Phase.TheVariants.{BeginReq, BeginResp};
ghost use Rattle.tlm_types.specs.declared.words.TlmSync.TheVariants.{Updated, Completed};
ghost use Rattle.base_phases.specs.declared.phases.LaneState.TheVariants.{Free, Responding, Waiting};
ghost use Rattle.base_phases.specs.Phases.{next_state};
ghost use Rattle.hop_object.specs.States.{is_down};

use crate::answer::{request_answer, request_end_begun};
use crate::call::{Begun, Leg};
use crate::hop::Hop;
use crate::lane::{Lane, any_responding, put, requester};
use crate::legs::issue;
use base_phases::LaneState;
use log_items::BriefEvent;
use tlm_types::{Head, ObjectNo, Phase, Ps, ReqMode, TlmSync, TxnId};
use token_book::Tokens;

impl<T> Hop<T> {
    ghost use Rattle.hop_object.specs.Hops.{begin_answer, begin_entry, can_begin, entered, leg_at, leg_out, passed, MayCall};
    ghost use Rattle.hop_object.specs.Calls.{AnswersRequest};

    /// BEGIN_REQ. Busy comes exactly where a request is open or no lane is free, and changes nothing.
    /// Else the entry's time is the greater of `at` and that of the last call that ended a request.
    #[inline(always)]
    pub fn begin_req(
        &mut self,
        tokens: &Tokens,
        position: u64,
        txn: TxnId,
        at: Ps,
        item: T,
    ) -> Begun<T>
        requires tokens { self.old.book.table ≡ tokens.now }
        requires may { can_begin self.old ≡ true → MayCall self.old position }
        ensures { AnswersRequest self.old position txn at item self.new result }
    {
        if !self.can_begin() {
            return Begun::Busy {
                holder: requester(&self.lanes),
                live: self.lanes.len() as u32,
                item,
            };
        }
        let answer = self.begin_answer();
        let time = at.max(self.request_end);
        match answer {
            TlmSync::Accepted => {
                self.leave(position, txn, at, answer, LaneState::Requested, item);
                Begun::Left { answer, at: time }
            }
            TlmSync::Completed => {
                self.complete_now(position, txn, at);
                Begun::Now {
                    answer,
                    at: time,
                    leg: None,
                    item,
                }
            }
            TlmSync::Updated(Phase::BeginResp) => {
                let leg = self.answer_now(tokens, position, txn, at);
                Begun::Now {
                    answer,
                    at: time,
                    leg: Some(leg),
                    item,
                }
            }
            TlmSync::Updated(_) => {
                self.leave_ended(position, txn, at, answer, item);
                Begun::Left { answer, at: time }
            }
        }
    }

    // How the component downstream answers BEGIN_REQ. The lanes are looked at only where its mode asks for it.
    fn begin_answer(&self) -> TlmSync
        ensures { result ≡ begin_answer self.now }
    {
        let mode = self.traits.req;
        let open = matches!(mode, ReqMode::BeginResp) && any_responding(&self.lanes);
        request_answer(mode, open)
    }

    // A BEGIN_REQ whose item waits for the component downstream.
    #[inline(always)]
    fn leave(
        &mut self,
        position: u64,
        txn: TxnId,
        at: Ps,
        answer: TlmSync,
        state: LaneState,
        item: T,
    )
        requires can { can_begin self.old ≡ true }
        requires answer { answer ≡ begin_answer self.old }
        requires may { MayCall self.old position }
        requires next { next_state Free BeginReq (begin_answer self.old) ≡ Some state }
        requires down { is_down state ≡ true }
        ensures { self.new ≡ entered self.old (begin_entry self.old position txn at (begin_answer self.old)) (begin_answer self.old) state (Some item) self.old.book }
    {
        let time = at.max(self.request_end);
        let head = Head {
            position,
            object: ObjectNo::Hop(self.number),
            txn,
            time,
        };
        let event = BriefEvent::of_call(Phase::BeginReq, answer);
        self.log.push(head, event, 0);
        self.request_end = request_end_begun(self.request_end, answer, time);
        let lane = Lane {
            txn,
            position,
            state,
            last: time,
            latest: position,
            item: Some(item),
        };
        put(&mut self.lanes, lane);
    }

    // The same, where the answer ends the request. This and the next two aren't made part of the caller, which would grow very
    // large.
    fn leave_ended(&mut self, position: u64, txn: TxnId, at: Ps, answer: TlmSync, item: T)
        requires can { can_begin self.old ≡ true }
        requires answer { answer ≡ begin_answer self.old }
        requires may { MayCall self.old position }
        requires next { next_state Free BeginReq (begin_answer self.old) ≡ Some Waiting }
        ensures { self.new ≡ entered self.old (begin_entry self.old position txn at (begin_answer self.old)) (begin_answer self.old) Waiting (Some item) self.old.book }
    {
        self.leave(position, txn, at, answer, LaneState::Waiting, item);
    }

    // A BEGIN_REQ that is answered with BEGIN_RESP: the leg goes back at once.
    fn answer_now(&mut self, tokens: &Tokens, position: u64, txn: TxnId, at: Ps) -> Leg
        requires tokens { self.old.book.table ≡ tokens.now }
        requires can { can_begin self.old ≡ true }
        requires may { MayCall self.old position }
        requires answer { begin_answer self.old ≡ Updated BeginResp }
        ensures hop { self.new ≡ entered self.old (begin_entry self.old position txn at (begin_answer self.old)) (begin_answer self.old) Responding None (leg_out self.old.book position Responding) }
        ensures leg { result ≡ leg_at self.old.book position Responding }
    {
        let time = at.max(self.request_end);
        let head = Head {
            position,
            object: ObjectNo::Hop(self.number),
            txn,
            time,
        };
        let event = BriefEvent::Updated {
            phase: Phase::BeginReq,
            next: Phase::BeginResp,
        };
        self.log.push(head, event, 0);
        self.request_end = time;
        let lane = Lane {
            txn,
            position,
            state: LaneState::Responding,
            last: time,
            latest: position,
            item: None,
        };
        put(&mut self.lanes, lane);
        issue(tokens, &mut self.book, position, LaneState::Responding)
    }

    // A BEGIN_REQ that ends the transaction.
    fn complete_now(&mut self, position: u64, txn: TxnId, at: Ps)
        requires can { can_begin self.old ≡ true }
        requires may { MayCall self.old position }
        requires answer { begin_answer self.old ≡ Completed }
        ensures { self.new ≡ passed self.old (begin_entry self.old position txn at (begin_answer self.old)) (begin_answer self.old) }
    {
        let time = at.max(self.request_end);
        let head = Head {
            position,
            object: ObjectNo::Hop(self.number),
            txn,
            time,
        };
        let event = BriefEvent::Completed {
            phase: Phase::BeginReq,
        };
        self.log.push(head, event, 0);
        self.request_end = time;
    }
}
