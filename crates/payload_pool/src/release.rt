// References that are given back.
ghost use Rattle.std.specs.Prelude.{◌≡◌, ◌%◌, ◌≤◌, ◌<◌, length, true, All, Some, None, IfSome, MatchOption, option_map};
ghost use Rattle.token_book.specs.Purse.{empty_purse};
ghost use Rattle.flow_model.specs.Events.{Event};
ghost use Rattle.payload_pool.specs.Pool.{IsOut};
ghost use Rattle.payload_pool.specs.Calls.{is_out, IsIntact, Releases};

use crate::baton::{Baton, Hold, Own};
use crate::pool::Pool;
use crate::slot::{KeptPayload, place_of};
use crate::take::head;
use log_items::BriefEvent;
use tlm_types::Ps;
use token_book::{One, Tokens};

impl Pool {
    // Takes the reference of this token back, with what it brings back.
    #[inline(always)]
    fn give_back(
        &mut self,
        tokens: &Tokens,
        position: u64,
        token: One,
        at: Ps,
        kept: Option<KeptPayload>,
    ) -> bool
        requires tokens { self.old.book.table ≡ tokens.now }
        requires token { IsOut self.old token × (token.amount ≡ 1) }
        requires part { MatchOption kept (token.name % 32 < 15) (λ k. (16 ≤ token.name % 32) × (k.payload.room ≡ self.old.room)) }
        requires wallet { IfSome kept (λ k. k.wallet ≡ empty_purse 12) }
        requires past { is_out self.old token.name ≡ true → All (λ (e : Event). e.position < position) self.old.log.events }
        requires room { is_out self.old token.name ≡ true → length self.old.log.events < self.old.log.room }
        ensures { Releases self.old position token at (option_map (λ k. k.payload.room) kept) result self.new }
    {
        let name = token.name();
        tokens.retire_one(&mut self.book, token);
        let place = place_of(&self.slots, name);
        let number = (name % 32).min(15);
        let txn = self.slots[place].txn();
        let freed = self.slots[place].give_back(number, kept);
        let event = BriefEvent::Release {
            slot: place as u8,
            freed,
        };
        self.log.push(head(self.initiator, position, txn, at), event, number as u8);
        freed
    }

    /// Gives a reference up. It answers whether that was the last of its slot.
    #[inline(always)]
    pub fn release(&mut self, tokens: &Tokens, position: u64, hold: Hold, at: Ps) -> bool
        requires tokens { self.old.book.table ≡ tokens.now }
        requires hold { IsOut self.old hold }
        requires past { is_out self.old hold.name ≡ true → All (λ (e : Event). e.position < position) self.old.log.events }
        requires room { is_out self.old hold.name ≡ true → length self.old.log.events < self.old.log.room }
        ensures { Releases self.old position hold at None result self.new }
    {
        let Hold { token } = hold;
        self.give_back(tokens, position, token, at, None)
    }

    /// Gives the initiator's own reference up, and puts the payload and its empty wallet back. It answers
    /// whether that was the last reference of the slot.
    #[inline(always)]
    pub fn stow(&mut self, tokens: &Tokens, position: u64, baton: Baton, at: Ps) -> bool
        requires tokens { self.old.book.table ≡ tokens.now }
        requires baton { IsOut self.old baton.own }
        requires whole { IsIntact self.old.room baton }
        requires past { is_out self.old baton.own.name ≡ true → All (λ (e : Event). e.position < position) self.old.log.events }
        requires room { is_out self.old baton.own.name ≡ true → length self.old.log.events < self.old.log.room }
        ensures { Releases self.old position baton.own at (Some baton.payload.room) result self.new }
    {
        let Baton {
            payload,
            wallet,
            slot: _,
            txn: _,
            own,
        } = baton;
        let Own { token } = own;
        self.give_back(
            tokens,
            position,
            token,
            at,
            Some(KeptPayload { payload, wallet }),
        )
    }
}
