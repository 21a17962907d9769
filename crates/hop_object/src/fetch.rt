// Items that wait are fetched.
ghost use Rattle.std.specs.Prelude.{◌≡◌, ◌<◌, length, IsSome};
ghost use Rattle.std.specs.List.{HoldsAt};
ghost use Rattle.base_phases.specs.declared.phases.LaneState.TheVariants.{Free};

use crate::call::Leg;
use crate::hop::Hop;
use crate::lane::{Side, change, first_waiting, take_out};
use crate::legs::issue;
use base_phases::LaneState;
use tlm_types::{Ps, TxnId};
use token_book::Tokens;

impl<T> Hop<T> {
    ghost use Rattle.hop_object.specs.Calls.{FetchesDown, FetchesUp, HandsOut, LetsGo};

    /// Of the items that wait for the component downstream the one with the least time, equal times in
    /// order of arrival, with its leg and the state of its lane. None comes exactly where none waits.
    #[inline(always)]
    pub fn fetch_down(&mut self, tokens: &Tokens) -> Option<(Leg, LaneState, TxnId, Ps, T)>
        requires { self.old.book.table ≡ tokens.now }
        ensures { FetchesDown self.old self.new result }
    {
        let index = first_waiting(&self.lanes, Side::Down)?;
        Some(self.hand_out(tokens, index))
    }

    /// Of the responses that wait for the component upstream the first, in the same order. The leg is
    /// there exactly where END_RESP is owed. None comes exactly where none waits.
    #[inline(always)]
    pub fn fetch_up(&mut self, tokens: &Tokens) -> Option<(Option<Leg>, TxnId, Ps, T)>
        requires { self.old.book.table ≡ tokens.now }
        ensures { FetchesUp self.old self.new result }
    {
        let index = first_waiting(&self.lanes, Side::Up)?;
        match self.lanes[index].state {
            LaneState::Free => {
                let (txn, time, item) = self.free_lane(index);
                Some((None, txn, time, item))
            }
            LaneState::Responding => {
                let (leg, _, txn, time, item) = self.hand_out(tokens, index);
                Some((Some(leg), txn, time, item))
            }
            LaneState::Requested | LaneState::Waiting => unreachable!(),
        }
    }

    // Hands out the item and the leg of a lane.
    #[inline(always)]
    fn hand_out(&mut self, tokens: &Tokens, index: usize) -> (Leg, LaneState, TxnId, Ps, T)
        requires tokens { self.old.book.table ≡ tokens.now }
        requires place { index < length self.old.lanes }
        requires carries { HoldsAt (λ l. IsSome l.item) self.old.lanes index }
        ensures { HandsOut self.old index self.new result.0 result.1 result.2 result.3 result.4 }
    {
        let lane = &self.lanes[index];
        let txn = lane.txn;
        let state = lane.state;
        let begun = lane.position;
        let time = lane.last;
        let latest = lane.latest;
        let item = change(&mut self.lanes, index, state, time, latest, None).unwrap();
        let leg = issue(tokens, &mut self.book, begun, state);
        (leg, state, txn, time, item)
    }

    // Hands out the response of an ended transaction.
    fn free_lane(&mut self, index: usize) -> (TxnId, Ps, T)
        requires place { index < length self.old.lanes }
        requires carries { HoldsAt (λ l. IsSome l.item) self.old.lanes index }
        requires ended { HoldsAt (λ l. l.state ≡ Free) self.old.lanes index }
        ensures { LetsGo self.old index self.new result.0 result.1 result.2 }
    {
        let lane = &self.lanes[index];
        let txn = lane.txn;
        let time = lane.last;
        let was = take_out(&mut self.lanes, index);
        (txn, time, was.unwrap())
    }
}
