// A bench on which a hop is asked one step after another.
ghost use Rattle.std.specs.Prelude.{◌≡◌, ℕ, ◌+◌, ◌<◌, ◌≤◌, ◌⊎◌, true, false, length, All};
ghost use Rattle.base_phases.specs.declared.phases.LaneState.TheVariants.{Requested, Waiting};
ghost use Rattle.flow_model.specs.Events.{Event};
ghost use Rattle.hop_object.specs.Laws.{IsHeld, IsOwed, LegsFit, RespondedFits};
ghost use Rattle.hop_object.specs.Hops.{IsLegOf};
ghost use Rattle.hop_object.specs.Objects.{is_admitted, IsFit};

use base_phases::LaneState;
use hop_object::{Begun, Hop, HopCall, HopReply, Leg, Responded};
use shared_object::Object;
use std::alloc::Global;
use std::process::Abort;
use tlm_types::{Ps, ReqMode, RespMode, TlmSync, TxnId};
use token_book::Tokens;

/// A step of a row: the number of the transaction, and the time.
pub enum Step {
    BeginReq(u64, Ps),
    FetchDown,
    EndReq(u64, Ps),
    BeginResp(u64, Ps),
    FetchUp,
    EndResp(u64, Ps),
}

/// What the hop told: a word, the number of a transaction, and the time, or how many lanes are live.
pub type Told = (&'static str, u64, Ps);

// A leg that is out, with the number of its transaction.
#[derive(Drop)]
struct Held {
    seq: u64,
    leg: Leg,
}

/// A hop whose items are the numbers of their transactions, with its tokens, the legs that are out, the
/// next position, and for how many entries there is room.
#[derive(Drop)]
pub struct Bench {
    hop: Hop<u64>,
    tokens: Tokens,
    legs: Vec<Held>,
    position: u64,
    left: u64,
    ghost table: { hop.book.table ≡ tokens },
    ghost own: { All (λ h. IsHeld hop.book h.leg) legs.items },
    ghost past: { All (λ (e : Event). e.position < position) hop.log.events },
    ghost room: { length hop.log.events + left ≤ hop.log.room },
    ghost low: { position + left ≤ 1000 },
}

fn txn(seq: u64) -> TxnId {
    TxnId { initiator: 3, seq }
}

fn answer_word(answer: TlmSync) -> &'static str {
    match answer {
        TlmSync::Accepted => "accepted",
        TlmSync::Updated(_) => "updated",
        TlmSync::Completed => "completed",
    }
}

fn state_word(state: LaneState) -> &'static str {
    match state {
        LaneState::Free => "free",
        LaneState::Requested => "requested",
        LaneState::Waiting => "waiting",
        LaneState::Responding => "responding",
    }
}

impl Bench {
    pub fn new(rt: &impl Abort, alloc: Global, lanes: u32, req: ReqMode, resp: RespMode) -> Bench
        requires { (1 ≤ lanes) × (lanes ≤ 16) }
    {
        let Ok((tokens, mut books)) = Tokens::new(alloc, 1) else {
            panic!(rt; "memory");
        };
        let Some(book) = books.pop() else {
            unreachable!()
        };
        let Ok(hop) = Hop::new(alloc, 7, lanes, req, resp, 80, book) else {
            panic!(rt; "memory");
        };
        Bench {
            hop,
            tokens,
            legs: Vec::new(alloc),
            position: 0,
            left: 80,
        }
    }

    /// Asks the hop, and tells what it answers. A leg that comes is kept on the bench.
    pub fn ask(&mut self, rt: &impl Abort, step: &Step) -> Told {
        match *step {
            Step::BeginReq(seq, at) => self.begin_req(rt, seq, at),
            Step::FetchDown => self.fetch_down(rt),
            Step::EndReq(seq, at) => self.end_req(rt, seq, at),
            Step::BeginResp(seq, at) => self.begin_resp(rt, seq, at),
            Step::FetchUp => self.fetch_up(rt),
            Step::EndResp(seq, at) => self.end_resp(rt, seq, at),
        }
    }

    // Where the hop has begun a call, or who holds it, or that no lane is free.
    fn begin_req(&mut self, rt: &impl Abort, seq: u64, at: Ps) -> Told {
        let call = HopCall::BeginReq {
            txn: txn(seq),
            at,
            item: seq,
        };
        match self.ask_hop(rt, call) {
            HopReply::Begun(Begun::Left { answer, at }) => (answer_word(answer), seq, at),
            HopReply::Begun(
                Begun::Busy {
                    holder: Some(holder),
                    live,
                    item: _,
                },
            ) => ("held", holder.seq, u64::from(live)),
            HopReply::Begun(
                Begun::Busy {
                    holder: None,
                    live,
                    item: _,
                },
            ) => ("full", seq, u64::from(live)),
            _ => panic!(rt; "another answer"),
        }
    }

    fn fetch_down(&mut self, rt: &impl Abort) -> Told {
        match self.ask_hop(rt, HopCall::FetchDown) {
            HopReply::Down(Some((leg, state, txn, at, item))) => {
                self.keep(rt, item, leg);
                (state_word(state), txn.seq, at)
            }
            _ => panic!(rt; "nothing came down"),
        }
    }

    fn end_req(&mut self, rt: &impl Abort, seq: u64, at: Ps) -> Told {
        let leg = self.take_in(rt, seq, LaneState::Requested);
        match self.ask_hop(rt, HopCall::EndReq { leg, at }) {
            HopReply::EndedReq(leg, at) => {
                self.keep(rt, seq, leg);
                ("ended", seq, at)
            }
            _ => panic!(rt; "another answer"),
        }
    }

    fn begin_resp(&mut self, rt: &impl Abort, seq: u64, at: Ps) -> Told {
        let leg = self.take_early(rt, seq);
        match self.ask_hop(rt, HopCall::BeginResp { leg, at, item: seq }) {
            HopReply::Responded(responded) => self.tell_responded(rt, seq, responded),
            _ => panic!(rt; "another answer"),
        }
    }

    // The answer to a response. The leg of a refused one is kept.
    fn tell_responded(&mut self, rt: &impl Abort, seq: u64, responded: Responded<u64>) -> Told
        requires { RespondedFits self.old.hop responded }
    {
        match responded {
            Responded::Sent { answer, at } => (answer_word(answer), seq, at),
            Responded::Busy { holder, leg, item } => {
                self.keep_early(rt, item, leg);
                ("held", holder.seq, 0)
            }
        }
    }

    // The leg of END_RESP, which is owed, is kept.
    fn fetch_up(&mut self, rt: &impl Abort) -> Told {
        match self.ask_hop(rt, HopCall::FetchUp) {
            HopReply::Up(Some((leg, txn, at, item))) => {
                self.keep_owed(rt, item, leg);
                ("owed", txn.seq, at)
            }
            _ => panic!(rt; "nothing came up"),
        }
    }

    fn end_resp(&mut self, rt: &impl Abort, seq: u64, at: Ps) -> Told {
        let leg = self.take_in(rt, seq, LaneState::Responding);
        match self.ask_hop(rt, HopCall::EndResp { leg, at }) {
            HopReply::EndedResp(at) => ("ended", seq, at),
            _ => panic!(rt; "another answer"),
        }
    }

    // Makes a call, for which there is room.
    fn ask_hop(&mut self, rt: &impl Abort, call: HopCall<u64>) -> HopReply<u64>
        requires { IsFit self.old.hop call }
        ensures { LegsFit self.new.hop result }
    {
        assert!(rt; self.left > 0);
        self.call(call)
    }

    // Makes a call at the next position.
    fn call(&mut self, call: HopCall<u64>) -> HopReply<u64>
        requires fit { IsFit self.old.hop call }
        requires left { 0 < self.old.left }
        ensures { LegsFit self.new.hop result }
    {
        let position = self.position_for(&call);
        let reply = self.hop.apply(&self.tokens, position, call);
        self.position += 1;
        self.left -= 1;
        reply
    }

    // A call that adds no entry gets the position 0.
    fn position_for(&self, call: &HopCall<u64>) -> u64
        ensures admitted { is_admitted self.now.hop call.now ≡ true → result ≡ self.now.position }
        ensures refused { is_admitted self.now.hop call.now ≡ false → result ≡ 0 }
    {
        if self.hop.admits(call) {
            self.position
        } else {
            0
        }
    }

    // The leg of a transaction.
    fn take(&mut self, rt: &impl Abort, seq: u64) -> Leg
        ensures { IsHeld self.new.hop.book result }
    {
        let Some(index) = self.legs.iter().position(|held| held.seq == seq) else {
            panic!(rt; "no leg");
        };
        let Held { seq: _, leg } = self.legs.remove(index);
        leg
    }

    // The leg of a transaction, whose lane is in this state.
    fn take_in(&mut self, rt: &impl Abort, seq: u64, state: LaneState) -> Leg
        ensures { IsLegOf self.new.hop result state }
    {
        let leg = self.take(rt, seq);
        assert!(rt; leg.state() == state);
        leg
    }

    // The leg of a transaction, whose response hasn't begun.
    fn take_early(&mut self, rt: &impl Abort, seq: u64) -> Leg
        ensures { IsLegOf self.new.hop result Requested ⊎ IsLegOf self.new.hop result Waiting }
    {
        let leg = self.take(rt, seq);
        match leg.state() {
            LaneState::Requested | LaneState::Waiting => leg,
            LaneState::Free | LaneState::Responding => panic!(rt; "another leg"),
        }
    }

    // Keeps a leg that came.
    fn keep(&mut self, rt: &impl Abort, seq: u64, leg: Leg)
        requires { IsHeld self.old.hop.book leg }
    {
        if self.legs.push(Held { seq, leg }).is_err() {
            panic!(rt; "memory");
        }
    }

    // Keeps a leg that came back with a refused response.
    fn keep_early(&mut self, rt: &impl Abort, seq: u64, leg: Leg)
        requires { IsLegOf self.old.hop leg Requested ⊎ IsLegOf self.old.hop leg Waiting }
    {
        self.keep(rt, seq, leg);
    }

    // Keeps the leg of END_RESP.
    fn keep_owed(&mut self, rt: &impl Abort, seq: u64, leg: Option<Leg>)
        requires { IsOwed self.old.hop leg }
    {
        match leg {
            None => panic!(rt; "no END_RESP is owed"),
            Some(leg) => self.keep(rt, seq, leg),
        }
    }
}
