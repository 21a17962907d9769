// Payloads that are taken, and references to them.
ghost use Rattle.std.specs.Prelude.{◌≡◌, ◌+◌, ◌*◌, ◌%◌, ◌≤◌, ◌<◌, length, true, All};
ghost use Rattle.tlm_types.specs.declared.words.ObjectNo.TheVariants.{Pool as pool_number};
ghost use Rattle.token_book.specs.Account.{issued, out_of, slip};
ghost use Rattle.flow_model.specs.Events.{Event};
ghost use Rattle.payload_pool.specs.Slots.{acquired_of};
ghost use Rattle.payload_pool.specs.Pool.{IsOut, has_free};
ghost use Rattle.payload_pool.specs.Calls.{is_out, Takes, Acquires};

use crate::baton::{Baton, Hold, Own};
use crate::pool::Pool;
use crate::slot::{KeptPayload, free_place, place_of};
use log_items::BriefEvent;
use tlm_types::{Head, ObjectNo, Ps, TxnId};
use token_book::{Book, Tokens};

// Where and when an entry happens.
pub(crate) fn head(initiator: u32, position: u64, txn: TxnId, time: Ps) -> Head
    ensures { result ≡ record { position = position; object = pool_number initiator; txn = txn; time = time } }
{
    Head {
        position,
        object: ObjectNo::Pool(initiator),
        txn,
        time,
    }
}

// A token of a hold.
fn issue_hold(tokens: &Tokens, book: &mut Book, name: u32) -> Hold
    requires table { book.old.table ≡ tokens.now }
    requires name { name % 32 < 15 }
    requires few { out_of name book.old.out ≤ 1000 }
    ensures book { book.new ≡ issued book.old name 1 }
    ensures hold { result ≡ slip book.old name 1 }
{
    Hold {
        token: tokens.issue_one(book, name),
    }
}

// A token of a baton.
fn issue_own(tokens: &Tokens, book: &mut Book, name: u32) -> Own
    requires table { book.old.table ≡ tokens.now }
    requires name { 16 ≤ name % 32 }
    requires few { out_of name book.old.out ≤ 1000 }
    ensures book { book.new ≡ issued book.old name 1 }
    ensures own { result ≡ slip book.old name 1 }
{
    Own {
        token: tokens.issue_one(book, name),
    }
}

impl Pool {
    /// Takes the payload of the least free slot, which is then as new. None exactly where all slots are
    /// live. The position is past all entries, so that no two batons have one name.
    #[inline(always)]
    pub fn take(&mut self, tokens: &Tokens, position: u64, txn: TxnId, at: Ps) -> Option<Baton>
        requires tokens { self.old.book.table ≡ tokens.now }
        requires position { has_free self.old ≡ true → position < 1000000 }
        requires past { has_free self.old ≡ true → All (λ (e : Event). e.position < position) self.old.log.events }
        requires room { has_free self.old ≡ true → length self.old.log.events < self.old.log.room }
        ensures { Takes self.old position txn at result self.new }
    {
        let place = free_place(&self.slots)?;
        let KeptPayload { payload, wallet } = self.slots[place].begin(txn, position);
        let slot = place as u32;
        let event = BriefEvent::Take { slot: place as u8 };
        self.log
            .push(head(self.initiator, position, txn, at), event, 0);
        let own = issue_own(tokens, &mut self.book, 32 * position as u32 + 16);
        Some(Baton {
            payload,
            wallet,
            slot,
            txn,
            own,
        })
    }

    /// Acquires one reference more, with a baton that has acquired fewer than 15.
    #[inline(always)]
    pub fn acquire(&mut self, tokens: &Tokens, position: u64, baton: Baton, at: Ps) -> (Baton, Hold)
        requires tokens { self.old.book.table ≡ tokens.now }
        requires baton { IsOut self.old baton.own }
        requires few { acquired_of baton.own.name < 15 }
        requires past { is_out self.old baton.own.name ≡ true → All (λ (e : Event). e.position < position) self.old.log.events }
        requires room { is_out self.old baton.own.name ≡ true → length self.old.log.events < self.old.log.room }
        ensures { Acquires self.old position baton at result.0 result.1 self.new }
    {
        let Baton {
            payload,
            wallet,
            slot,
            txn,
            own,
        } = baton;
        let name = own.name();
        let Own { token } = own;
        tokens.retire_one(&mut self.book, token);
        let place = place_of(&self.slots, name);
        let event = BriefEvent::Acquire { slot: place as u8 };
        let head = head(self.initiator, position, self.slots[place].txn(), at);
        self.log.push(head, event, (name % 16) as u8);
        self.slots[place].acquire();
        let own = issue_own(tokens, &mut self.book, name + 1);
        let hold = issue_hold(tokens, &mut self.book, name - 16);
        let baton = Baton {
            payload,
            wallet,
            slot,
            txn,
            own,
        };
        (baton, hold)
    }
}
