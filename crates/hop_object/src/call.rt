// The calls of a hop, and its replies.
use base_phases::LaneState;
use std::marker::Model;
use tlm_types::{Ps, ReqMode, RespMode, TlmSync, TxnId};
use token_book::One;

/// How a hop is made: the number of its lanes, how the component downstream answers BEGIN_REQ, and how
/// the one upstream answers BEGIN_RESP.
#[derive(Clone, Copy, Debug, PartialEq, Eq)]
pub struct HopTraits {
    pub lanes: u32,
    pub req: ReqMode,
    pub resp: RespMode,
}

/// The right to the next call of one lane. Its name is four times the position of the BEGIN_REQ that
/// holds the lane, and the number of the lane's state. Contracts see its token.
pub struct Leg {
    pub(crate) token: One,
}

impl Model for Leg {
    ghost use Rattle.std.specs.Prelude.{◌≡◌};
    ghost use Rattle.token_book.specs.Account.{Slip, slip_code};

    ghost Value = { Slip };

    ghost coded = { slip_code };

    ghost view = { λ l. l.token };

    ghost invariant = { λ l. l.token.amount ≡ 1 };
}

// Written out, so that crates above call it and needn't prove again how each part is let go of.
impl Drop for Leg {
    fn drop(self) {
        let Leg { token: _token } = self;
    }
}

impl Leg {
    ghost use Rattle.std.specs.Prelude.{◌≡◌, ◌%◌};
    ghost use Rattle.hop_object.specs.States.{number_of_state};

    /// The state of its lane.
    pub fn state(&self) -> LaneState
        ensures { self.now.name % 4 ≡ number_of_state result }
    {
        match self.token.name() % 4 {
            0 => LaneState::Free,
            1 => LaneState::Requested,
            2 => LaneState::Waiting,
            _ => LaneState::Responding,
        }
    }

    #[inline(always)]
    pub(crate) fn into_token(self) -> One
        ensures { result ≡ self }
    {
        let Leg { token } = self;
        token
    }
}

/// The answer of BEGIN_REQ.
#[derive(Drop)]
pub enum Begun<T> {
    /// The item waits for the component downstream.
    Left {
        answer: TlmSync,
        at: Ps,
    },
    /// The answer has the response with it, or ends the transaction. The leg is that of END_RESP, where
    /// it is owed.
    Now {
        answer: TlmSync,
        at: Ps,
        leg: Option<Leg>,
        item: T,
    },
    /// A request is open, by this transaction, or no lane is free of so many that are in use.
    Busy {
        holder: Option<TxnId>,
        live: u32,
        item: T,
    },
}

/// The answer of BEGIN_RESP.
#[derive(Drop)]
pub enum Responded<T> {
    /// The item waits for the component upstream.
    Sent { answer: TlmSync, at: Ps },
    /// A response is open, by this transaction.
    Busy { holder: TxnId, leg: Leg, item: T },
}

/// What can be asked of a hop. The times are in picoseconds: no entry's is below that of its call.
#[derive(Drop)]
pub enum HopCall<T> {
    BeginReq { txn: TxnId, at: Ps, item: T },
    FetchDown,
    EndReq { leg: Leg, at: Ps },
    BeginResp { leg: Leg, at: Ps, item: T },
    FetchUp,
    EndResp { leg: Leg, at: Ps },
    Ended { txn: TxnId },
}

/// What a hop answers.
#[derive(Drop)]
pub enum HopReply<T> {
    Begun(Begun<T>),
    Down(Option<(Leg, LaneState, TxnId, Ps, T)>),
    EndedReq(Leg, Ps),
    Responded(Responded<T>),
    Up(Option<(Option<Leg>, TxnId, Ps, T)>),
    EndedResp(Ps),
    Ended(bool),
}
