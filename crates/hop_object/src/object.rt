// A hop as an object of the history.
ghost use Rattle.std.specs.Prelude.{◌≡◌, true};

use crate::call::{HopCall, HopReply, HopTraits};
use crate::hop::Hop;
use crate::lane::Side;
use entry_log::Log;
use one_history::Sign;
use shared_object::Object;
use token_book::Tokens;

impl<T> Hop<T> {
    ghost use Rattle.hop_object.specs.Hops.{MayCall};
    ghost use Rattle.hop_object.specs.Objects.{is_admitted, Applied, IsFit};

    // Makes a call. Its kind is known where this is inlined.
    #[inline(always)]
    fn answer(&mut self, tokens: &Tokens, position: u64, call: HopCall<T>) -> HopReply<T>
        requires tokens { self.old.book.table ≡ tokens.now }
        requires fit { IsFit self.old call }
        requires may { is_admitted self.old call ≡ true → MayCall self.old position }
        ensures { Applied self.old position call result self.new }
    {
        match call {
            HopCall::BeginReq { txn, at, item } => {
                HopReply::Begun(self.begin_req(tokens, position, txn, at, item))
            }
            HopCall::FetchDown => HopReply::Down(self.fetch_down(tokens)),
            HopCall::EndReq { leg, at } => {
                let (next, time) = self.end_req(tokens, position, leg, at);
                HopReply::EndedReq(next, time)
            }
            HopCall::BeginResp { leg, at, item } => {
                HopReply::Responded(self.begin_resp(tokens, position, leg, at, item))
            }
            HopCall::FetchUp => HopReply::Up(self.fetch_up(tokens)),
            HopCall::EndResp { leg, at } => {
                HopReply::EndedResp(self.end_resp(tokens, position, leg, at))
            }
            HopCall::Ended { txn } => HopReply::Ended(self.ended(txn)),
        }
    }
}

impl<T> Object for Hop<T> {
    ghost use Rattle.std.specs.Prelude.{◌≡◌, ◌-◌, false, length, map};
    ghost use Rattle.numbered_log.specs.Logged.{written_by};
    ghost use Rattle.hop_object.specs.Hops.{Follows};
    ghost use Rattle.hop_object.specs.Objects.{brought_by, built_of, carried_by, content_by, given_by, is_admitted, look_of, Applied, IsFit};

    type Call = HopCall<T>;

    type Reply = HopReply<T>;

    type Item = (Side, T);

    type Made = HopTraits;

    ghost built = { built_of };

    ghost entries = { λ h. map written_by h.log.events };

    ghost follows = { Follows };

    ghost room = { λ h. h.log.room - length h.log.events };

    ghost bytes_left = { λ _. 0 };

    ghost cost = { λ _. 0 };

    ghost admitted = { is_admitted };

    ghost content = { content_by };

    ghost look = { look_of };

    ghost fits = { λ h call _. IsFit h call };

    ghost carried = { λ h. carried_by h.lanes };

    ghost brought = { brought_by };

    ghost given = { given_by };

    ghost applied = { Applied };

    ghost more_fit = { λ _ _ _ _ _ fit. fit };

    fn number(&self) -> u32 {
        Hop::number(self)
    }

    #[inline(always)]
    fn admits(&self, call: &HopCall<T>) -> bool {
        // Here and after a call, the clauses of `log` say that the lanes are those of the log.
        let _ = Hop::log(self);
        match call {
            HopCall::BeginReq { .. } => self.can_begin(),
            HopCall::EndReq { leg, .. } | HopCall::EndResp { leg, .. } => self.knows(leg),
            HopCall::BeginResp { leg, .. } => self.knows(leg) && self.can_respond(),
            HopCall::FetchDown | HopCall::FetchUp | HopCall::Ended { .. } => false,
        }
    }

    fn sign(&self, _call: &HopCall<T>) -> Sign {
        Sign::Plain
    }

    #[inline(always)]
    fn apply(&mut self, tokens: &Tokens, position: u64, call: HopCall<T>) -> HopReply<T> {
        let reply = self.answer(tokens, position, call);
        let _ = Hop::log(self);
        reply
    }

    fn log(&self) -> &Log {
        Hop::log(self)
    }

    // It keeps all entries in store, each with its number.
    fn forget(&mut self) {
        let _ = Hop::log(self);
    }

    fn room(&self) -> u64 {
        let log = Hop::log(self);
        log.room().saturating_sub(log.len())
    }

    fn cost(_call: &HopCall<T>) -> u64 {
        0
    }

    fn bytes_left(&self) -> u64 {
        0
    }
}
