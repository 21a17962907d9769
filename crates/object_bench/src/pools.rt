// A pool by itself: its calls one after another.
ghost use Rattle.std.specs.Prelude.{◌≡◌, ◌+◌, ◌<◌, ◌≤◌, []};
ghost use Rattle.payload_pool.specs.Slots.{acquired_of};
ghost use Rattle.object_bench.specs.Ready.{IsReady, IsMine, IsBaton};

use payload_pool::{Baton, Hold, Pool};
use std::alloc::Global;
use std::process::Abort;
use tlm_types::{Ps, TxnId, What};
use token_book::Tokens;

// A pool of initiator 3 with the book of owner 1, the position of its next entry, and for how many
// entries there is room.
#[derive(Drop)]
struct Bench {
    tokens: Tokens,
    pool: Pool,
    position: u64,
    left: u64,
    ghost ready: { IsReady left tokens position pool },
}

fn make_pool(rt: &impl Abort, alloc: Global, slots: u32, entries: u64) -> (Tokens, Pool)
    requires slots { (1 ≤ slots) × (slots ≤ 16) }
    ensures table { result.1.book.table ≡ result.0 }
    ensures owner { result.1.book.owner ≡ 1 }
    ensures bytes { result.1.room ≡ 16 }
    ensures log { result.1.log ≡ record { events = []; room = entries } }
{
    let Ok((tokens, mut books)) = Tokens::new(alloc, 2) else {
        panic!(rt; "memory");
    };
    let Some(book) = books.pop() else {
        unreachable!()
    };
    let Ok(pool) = Pool::new(alloc, 3, slots, 16, entries, book) else {
        panic!(rt; "memory");
    };
    (tokens, pool)
}

#[tactic(auto, using(crate::proofs::ReadyPools::ready_new))]
fn make_bench(rt: &impl Abort, alloc: Global, slots: u32, entries: u64) -> Bench
    requires slots { (1 ≤ slots) × (slots ≤ 16) }
    requires entries { entries < 1000 }
    ensures left { result.left ≡ entries }
    ensures empty { result.pool.log.events ≡ [] }
{
    let (tokens, pool) = make_pool(rt, alloc, slots, entries);
    Bench {
        tokens,
        pool,
        position: 0,
        left: entries,
    }
}

fn txn(seq: u64) -> TxnId {
    TxnId { initiator: 3, seq }
}

impl Bench {
    // Takes a slot, which is there.
    fn take(&mut self, rt: &impl Abort, seq: u64, at: Ps) -> Baton
        requires { 0 < self.old.left }
        ensures left { self.new.left + 1 ≡ self.old.left }
        ensures tokens { self.new.tokens ≡ self.old.tokens }
        ensures baton { IsBaton self.old.tokens result }
        ensures fresh { acquired_of result.own.name ≡ 0 }
    {
        let baton = self.pool.take(&self.tokens, self.position, txn(seq), at);
        self.position += 1;
        self.left -= 1;
        match baton {
            Some(baton) => baton,
            None => panic!(rt; "all slots are live"),
        }
    }

    // Whether there is no slot to be taken.
    fn is_full(&mut self, seq: u64, at: Ps) -> bool
        requires { 0 < self.old.left }
        ensures left { self.new.left + 1 ≡ self.old.left }
        ensures tokens { self.new.tokens ≡ self.old.tokens }
    {
        let baton = self.pool.take(&self.tokens, self.position, txn(seq), at);
        self.position += 1;
        self.left -= 1;
        baton.is_none()
    }

    fn acquire(&mut self, baton: Baton, at: Ps) -> (Baton, Hold)
        requires left { 0 < self.old.left }
        requires baton { IsBaton self.old.tokens baton }
        requires few { acquired_of baton.own.name < 15 }
        ensures left { self.new.left + 1 ≡ self.old.left }
        ensures tokens { self.new.tokens ≡ self.old.tokens }
        ensures baton { IsBaton self.old.tokens result.0 }
        ensures more { acquired_of result.0.own.name ≡ acquired_of baton.own.name + 1 }
        ensures hold { IsMine self.old.tokens result.1 }
    {
        let pair = self.pool.acquire(&self.tokens, self.position, baton, at);
        self.position += 1;
        self.left -= 1;
        pair
    }

    fn release(&mut self, hold: Hold, at: Ps) -> bool
        requires left { 0 < self.old.left }
        requires hold { IsMine self.old.tokens hold }
        ensures left { self.new.left + 1 ≡ self.old.left }
        ensures tokens { self.new.tokens ≡ self.old.tokens }
    {
        let freed = self.pool.release(&self.tokens, self.position, hold, at);
        self.position += 1;
        self.left -= 1;
        freed
    }

    fn stow(&mut self, baton: Baton, at: Ps) -> bool
        requires left { 0 < self.old.left }
        requires baton { IsBaton self.old.tokens baton }
        ensures left { self.new.left + 1 ≡ self.old.left }
        ensures tokens { self.new.tokens ≡ self.old.tokens }
    {
        let freed = self.pool.stow(&self.tokens, self.position, baton, at);
        self.position += 1;
        self.left -= 1;
        freed
    }

    // What the entry at this index says, and its slot.
    fn said(&self, index: u64) -> (&'static str, u32) {
        let log = self.pool.log();
        if index >= log.len() {
            return ("nothing", 0);
        }
        match log.what(index) {
            Some(What::Take { slot }) => ("take", slot),
            Some(What::Acquire { slot }) => ("acquire", slot),
            Some(What::Release { slot, freed: false }) => ("release", slot),
            Some(What::Release { slot, freed: true }) => ("free", slot),
            _ => ("another", 0),
        }
    }
}

#[test]
fn a_slot_is_free_after_its_last_reference(rt: HostRuntime) {
    let mut bench = make_bench(&rt, rt.alloc(), 2, 8);
    let x = bench.take(&rt, 0, 0);
    let y = bench.take(&rt, 1, 0);
    assert!(rt; x.slot() == 0 && x.acquired() == 0 && y.slot() == 1);
    assert!(rt; bench.is_full(2, 0));
    let (x, hold) = bench.acquire(x, 0);
    assert!(rt; hold.number() == 0 && x.acquired() == 1);
    assert!(rt; !bench.stow(x, 10) && bench.pool.live() == 2);
    assert!(rt; bench.release(hold, 12) && bench.pool.live() == 1);
    let z = bench.take(&rt, 2, 12);
    assert!(rt; z.slot() == 0 && z.txn() == txn(2));
    assert!(rt; bench.said(0) == ("take", 0) && bench.said(1) == ("take", 1));
    assert!(rt; bench.said(2) == ("acquire", 0) && bench.said(3) == ("release", 0));
    assert!(rt; bench.said(4) == ("free", 0) && bench.said(5) == ("take", 0));
    let pool = &bench.pool;
    assert!(rt; pool.has_released(txn(0), 0) && pool.has_released(txn(0), 15));
    assert!(rt; !pool.has_released(txn(1), 15));
}
