// A port without its note.
ghost use Rattle.std.specs.Prelude.{◌≡◌, ◌↔◌, [], IfOk, IsSome, IsTrue, None, Some, length};
ghost use Rattle.std.specs.Borrow.{sem};
ghost use Rattle.token_book.specs.Purse.{HasRoomForAll, IsOf, empty_purse};
ghost use Rattle.script_engine.specs.State.{next_of};
ghost use Rattle.port_model.specs.Ends.{IsEndOfPort};
ghost use Rattle.port_moves.specs.declared.hand.Hand.TheVariants as Hands;
ghost use Rattle.port_moves.specs.Lending.{LendsWallet};
ghost use Rattle.port_moves.specs.Returned.{TakesAll};
ghost use Rattle.port_moves.specs.State.{begun_state};

use crate::away::Away;
use crate::hand::Hand;
use cargo_model::Cargo;
use generic_payload::Payload;
use initiator_run::copied_refusals;
use script_engine::{Engine, Part};
use std::alloc::Global;
use std::marker::Model;
use std::mem::replace;
use tlm_types::{EndOf, Memory, Ps, RefusedList};
use token_book::{Tokens, Wallet};

/// What a port has beside its note: the engine, and whether the access that it waits for is under way; the
/// current time and the greatest end so far, in picoseconds; the numbers that are outstanding and what had
/// no route; what it works on and the request that was refused; the payload of its debug reads, and its
/// wallet. Contracts see them, and its accesses as a `Port` of `port_model`.
// The payload is away only while a debug read is made, which carries it along. The ticket of a debug read
// goes through the purse, which is empty before and after.
pub struct PortState {
    pub(crate) engine: Engine,
    pub(crate) waiting: bool,
    pub(crate) time: Ps,
    pub(crate) latest: Ps,
    pub(crate) away: Away,
    pub(crate) refused: RefusedList,
    pub(crate) hand: Hand,
    pub(crate) held: Option<Cargo>,
    pub(crate) payload: Option<Payload>,
    pub(crate) wallet: Wallet,
    pub(crate) purse: Wallet,
}

impl Model for PortState {
    ghost use Rattle.std.specs.Prelude.{◌≡◌};
    ghost use Rattle.std.specs.Coded.{codes};
    ghost use Rattle.token_book.specs.Purse.{empty_purse, purse_code};
    ghost use Rattle.port_moves.specs.State.{StateView};

    ghost Value = { StateView };

    ghost coded = { Prim.hlevel (codes, purse_code) };

    ghost view = { λ s. record {
      port = record { engine = s.engine; waiting = s.waiting; time = s.time; latest = s.latest; away = s.away.numbers; refused = s.refused.items };
      hand = s.hand;
      held = s.held;
      room = s.away.room;
      payload = s.payload;
      wallet = s.wallet;
    } };

    ghost invariant = { λ s. (s.refused.room ≡ s.away.room) × (s.purse ≡ empty_purse 1) };
}

// Written out, so that crates above call it and needn't prove again how each part is let go of.
impl Drop for PortState {
    fn drop(self) {
        let PortState {
            engine: _engine,
            waiting: _,
            time: _,
            latest: _,
            away: _away,
            refused: _refused,
            hand: _hand,
            held: _held,
            payload: _payload,
            wallet: _wallet,
            purse: _purse,
        } = self;
    }
}

// What a port has room in, with nothing in it.
#[derive(Drop)]
struct Rooms {
    away: Away,
    refused: RefusedList,
    purse: Wallet,
}

// Room for so much that may be outstanding or refused, and for the ticket of a debug read. Its only error is want of memory.
fn make_rooms(alloc: Global, room: u32) -> Result<Rooms, Memory>
    ensures away { IfOk result (λ rooms. rooms.away ≡ record { numbers = []; room = room }) }
    ensures refused { IfOk result (λ rooms. rooms.refused ≡ record { items = []; room = room }) }
    ensures purse { IfOk result (λ rooms. rooms.purse ≡ empty_purse 1) }
{
    let away = Away::with_room(alloc, room)?;
    let refused = RefusedList::with_room(alloc, room)?;
    let purse = Wallet::new(alloc, 1)?;
    Ok(Rooms {
        away,
        refused,
        purse,
    })
}

impl PortState {
    /// A port that begins: its whole script is before it, and so much may be outstanding or refused. Its only error is want of memory,
    /// by which what was handed in is spent.
    pub fn new(
        alloc: Global,
        room: u32,
        engine: Engine,
        payload: Payload,
        wallet: Wallet,
    ) -> Result<PortState, Memory>
        ensures { IfOk result (λ state. state ≡ begun_state engine payload room wallet) }
    {
        let rooms = make_rooms(alloc, room)?;
        Ok(PortState {
            engine,
            waiting: false,
            time: 0,
            latest: 0,
            away: rooms.away,
            refused: rooms.refused,
            hand: Hand::Free,
            held: None,
            payload: Some(payload),
            wallet,
            purse: rooms.purse,
        })
    }

    /// The number of its initiator.
    pub fn initiator(&self) -> u32
        ensures { result ≡ self.now.port.engine.initiator }
    {
        self.engine.initiator()
    }

    /// What is next in its script.
    #[inline(always)]
    pub fn part(&self) -> Part
        ensures { result ≡ next_of self.now.port.engine }
    {
        self.engine.next().part()
    }

    /// The current time, in picoseconds.
    pub fn time(&self) -> Ps
        ensures { result ≡ self.now.port.time }
    {
        self.time
    }

    /// Whether nothing is outstanding.
    pub fn is_alone(&self) -> bool
        ensures { IsTrue result ↔ (length self.now.port.away ≡ 0) }
    {
        self.away.is_empty()
    }

    /// Whether it works on nothing.
    pub fn is_free(&self) -> bool
        ensures { IsTrue result ↔ (self.now.hand ≡ Hands.Free) }
    {
        matches!(self.hand, Hand::Free)
    }

    /// Whether a request is held that was refused.
    pub fn holds(&self) -> bool
        ensures { IsTrue result ↔ IsSome self.now.held }
    {
        self.held.is_some()
    }

    // It works on this from now on.
    #[inline(always)]
    pub(crate) fn turn_to(&mut self, hand: Hand)
        ensures { self.new ≡ record self.old { hand = hand } }
    {
        self.hand = hand;
    }

    /// What it works on. It works on nothing then.
    // Often that is nothing, and then nothing is written.
    pub fn take_hand(&mut self) -> Hand
        ensures hand { result ≡ self.old.hand }
        ensures state { self.new ≡ record self.old { hand = Hands.Free } }
    {
        if let Hand::Free = &self.hand {
            return Hand::Free;
        }
        replace(&mut self.hand, Hand::Free)
    }

    /// The request that was refused, to try it again.
    pub fn take_held(&mut self) -> Option<Cargo>
        ensures held { result ≡ self.old.held }
        ensures state { self.new ≡ record self.old { held = None } }
    {
        if self.held.is_none() {
            return None;
        }
        self.held.take()
    }

    // A request was refused, and is held.
    pub(crate) fn hold(&mut self, cargo: Cargo)
        ensures { self.new ≡ record self.old { held = Some cargo } }
    {
        self.held = Some(cargo);
    }

    /// Its own wallet, for tickets that are spent out of it.
    pub fn wallet_mut(&mut self) -> &mut Wallet
        ensures* lends { sem 𝓛 (LendsWallet self.entry result) }
        ensures wallet { result.now ≡ self.old.wallet }
    {
        &mut self.wallet
    }

    /// What was spent has no place in its wallet any more.
    pub fn tidy(&mut self, tickets: &Tokens)
        requires of { IsOf tickets.now self.old.wallet }
        requires room { HasRoomForAll self.old.wallet (empty_purse 1) }
        ensures state { self.new ≡ (let wallet = self.new.wallet in record self.old { wallet = wallet }) }
        ensures takes { TakesAll tickets.now self.old.wallet (empty_purse 1) self.new.wallet }
    {
        self.wallet.put_all(tickets, &mut self.purse);
    }

    /// Its wallet, and how its initiator ended, with no syncs.
    pub fn into_end(self) -> (Wallet, EndOf)
        ensures wallet { result.0 ≡ self.wallet }
        ensures end { IsEndOfPort self.port result.1 }
    {
        let PortState {
            engine,
            waiting: _,
            time,
            latest,
            away: _away,
            refused,
            hand: _hand,
            held: _held,
            payload: _payload,
            wallet,
            purse: _purse,
        } = self;
        let end = EndOf {
            transactions: engine.transactions(),
            syncs: 0,
            end: time.max(latest),
            refused,
        };
        (wallet, end)
    }

    /// How far its initiator has come, told while it may go on, with no syncs. Its only error is want of memory.
    pub fn end_so_far(&self, alloc: Global) -> Result<EndOf, Memory>
        ensures { IfOk result (IsEndOfPort self.now.port) }
    {
        let refused = copied_refusals(alloc, &self.refused)?;
        Ok(EndOf {
            transactions: self.engine.transactions(),
            syncs: 0,
            end: self.time.max(self.latest),
            refused,
        })
    }
}
