// A hop, and what is read of it.
ghost use Rattle.std.specs.Prelude.{◌≡◌, ℕ, ◌≤◌, [], true, not, length, All, IfOk};
ghost use Rattle.std.specs.List.{list_all, list_any};
ghost use Rattle.token_book.specs.Account.{out_of};
ghost use Rattle.flow_model.specs.Events.{Event, entries};
ghost use Rattle.hop_object.specs.Lanes.{any_responding, has_leg, is_ended};

use crate::call::{HopTraits, Leg};
use crate::lane::{Lane, all_ended, any_leg, any_requested, any_responding};
use entry_log::Log;
use numbered_log::NumberedLog;
use std::alloc::Global;
use std::marker::Model;
use tlm_types::{Memory, ObjectNo, Ps, ReqMode, RespMode, TxnId};
use token_book::Book;

/// A bound pair of sockets (clause 11.1.2) with its lanes in use, the time of the last call that ended
/// a request, the greatest time of a call that ended a response, its log with the marks of its calls,
/// and the book of its legs.
pub struct Hop<T> {
    pub(crate) number: u32,
    pub(crate) traits: HopTraits,
    pub(crate) lanes: Vec<Lane<T>>,
    pub(crate) request_end: Ps,
    pub(crate) response_end: Ps,
    pub(crate) log: NumberedLog,
    pub(crate) book: Book,
}

impl<T> Model for Hop<T> {
    ghost use Rattle.hop_object.specs.View.{HopView};
    ghost use Rattle.hop_object.specs.Inside.{view_of, IsHop};

    ghost Value = { HopView T };

    ghost view = { view_of };

    ghost invariant = { IsHop };
}

// Written out, so that crates above call it and needn't prove again how each part is let go of.
impl<T: Drop> Drop for Hop<T> {
    fn drop(self) {
        let Hop {
            number: _,
            traits: _,
            lanes: _lanes,
            request_end: _,
            response_end: _,
            log: _log,
            book: _book,
        } = self;
    }
}

impl<T> Hop<T> {
    ghost use Rattle.hop_object.specs.Hops.{can_begin, Follows};

    /// Hop number `number`, counted from 0 over all hops, with so many lanes, from 1 to 16, an empty log
    /// with room for so many entries, and the book of its legs, which has nothing out. `req` is how the
    /// component downstream answers BEGIN_REQ, `resp` how the one upstream answers BEGIN_RESP. Its only
    /// error is want of memory.
    pub fn new(
        alloc: Global,
        number: u32,
        lanes: u32,
        req: ReqMode,
        resp: RespMode,
        entries: u64,
        book: Book,
    ) -> Result<Hop<T>, Memory>
        requires lanes { (1 ≤ lanes) × (lanes ≤ 16) }
        requires book { (name : ℕ) → out_of name book.out ≡ 0 }
        ensures { IfOk result (λ h. h ≡ record {
          number = number;
          traits = record { lanes = lanes; req = req; resp = resp };
          lanes = [];
          request_end = 0;
          response_end = 0;
          log = record { events = []; room = entries };
          book = book;
        }) }
    {
        let log = NumberedLog::with_room(alloc, entries)?;
        let places = Vec::with_capacity(alloc, lanes as usize)?;
        Ok(Hop {
            number,
            traits: HopTraits { lanes, req, resp },
            lanes: places,
            request_end: 0,
            response_end: 0,
            log,
            book,
        })
    }

    /// The number with which the hop was made.
    pub fn number(&self) -> u32
        ensures { result ≡ self.now.number }
    {
        self.number
    }

    /// How the hop was made.
    pub fn traits(&self) -> &HopTraits
        ensures { result.now ≡ self.now.traits }
    {
        &self.traits
    }

    /// The log: an entry for each call that was taken, in the order in which they were made. By these
    /// entries, with their marks, the model of a hop reaches the lanes.
    pub fn log(&self) -> &Log
        ensures entries { result.now.entries ≡ entries self.now.log.events }
        ensures room { result.now.room ≡ self.now.log.room }
        ensures len { length result.now.entries ≡ length self.now.log.events }
        ensures whole { result.now.whole ≡ true }
        ensures follows { Follows self.now }
        ensures own { All (λ (e : Event). e.object ≡ ObjectNo.Hop self.now.number) self.now.log.events }
    {
        self.log.log()
    }

    /// The log, when the hop is done with.
    pub fn into_log(self) -> Log
    where
        T: Drop,
        ensures entries { result.entries ≡ entries self.log.events }
        ensures whole { result.whole ≡ true }
        ensures follows { Follows self }
    {
        let Hop {
            number: _,
            traits: _,
            lanes: _lanes,
            request_end: _,
            response_end: _,
            log,
            book: _book,
        } = self;
        log.into_log()
    }

    /// Whether a BEGIN_REQ is taken now.
    pub fn can_begin(&self) -> bool
        ensures { result ≡ can_begin self.now }
    {
        !any_requested(&self.lanes) && self.lanes.len() < self.traits.lanes as usize
    }

    /// Whether a BEGIN_RESP is taken now.
    #[inline(always)]
    pub fn can_respond(&self) -> bool
        ensures { result ≡ not (any_responding self.now.lanes) }
    {
        !any_responding(&self.lanes)
    }

    /// Whether a lane has this leg.
    pub fn knows(&self, leg: &Leg) -> bool
        ensures { result ≡ list_any (has_leg leg.now.name) self.now.lanes }
    {
        any_leg(&self.lanes, leg.token.name())
    }

    /// Whether no lane's state is held by the transaction.
    pub fn ended(&self, txn: TxnId) -> bool
        ensures { result ≡ list_all (is_ended txn) self.now.lanes }
    {
        all_ended(&self.lanes, txn)
    }
}
