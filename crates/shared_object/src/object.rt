// What an object is.
ghost use Rattle.std.specs.Prelude.{◌≡◌, ◌+◌, ◌<◌, ◌≤◌, ◌++◌, [], ◌∷◌, true, false, map};
ghost use Rattle.std.specs.Option.{ForSome};
ghost use Rattle.view_lists.specs.Lists.{Has, Within};
ghost use Rattle.shared_object.specs.Written.{Built, own_number, sign_of, NamesOwnGate, Written, wrote, logged, MayWrite};

use entry_log::Log;
use one_history::{NoLaw, Sign};
use token_book::Tokens;

/// What stands under a lock and has a log: a memory, a hop or a pool. A call adds one entry to the
/// log, or none where it isn't admitted.
pub trait Object {
    ghost use Rattle.std.specs.Prelude.{ℕ, List, Bool};
    ghost use Rattle.view_lists.specs.Lists.{Within};
    ghost use Rattle.tlm_types.specs.declared.words.TxnId.{TxnId};
    ghost use Rattle.tlm_types.specs.declared.entry.Content.{Content};
    ghost use Rattle.shared_object.specs.Written.{Built, Written};

    /// What is asked of it.
    type Call;

    /// What it answers.
    type Reply;

    /// What it carries for a transaction.
    type Item;

    /// How it is made.
    type Made;

    /// How it is built, which never changes.
    ghost built: { Self → Built Self.Made };

    /// What it has written.
    ghost entries: { Self → List Written };

    /// Its state, but for items and tokens, is one that its log gives.
    ghost follows: { Self → Type 0 };

    /// How many entries it has room for.
    ghost room: { Self → ℕ };

    /// For how many bytes its log has room.
    ghost bytes_left: { Self → ℕ };

    /// The bytes that a call logs.
    ghost cost: { Self.Call → ℕ };

    /// Whether a call adds an entry.
    ghost admitted: { Self → Self.Call → Bool };

    /// The content of the entry that a call adds.
    ghost content: { Self → Self.Call → Content };

    /// The number, for looks, of an answer that gives nothing. All others have 0.
    ghost look: { Self.Reply → ℕ };

    /// Which calls fit it, by known entries of it.
    ghost fits: { Self → Self.Call → List Written → Type 0 };

    /// The items that it carries, each with its transaction.
    ghost carried: { Self → List (TxnId × Self.Item) };

    /// The items that a call brings.
    ghost brought: { Self → Self.Call → List (TxnId × Self.Item) };

    /// The items that a reply gives.
    ghost given: { Self → Self.Call → Self.Reply → List (TxnId × Self.Item) };

    /// What a call at a position answers, and what it leaves.
    ghost applied: { Self → ℕ → Self.Call → Self.Reply → Self → Type 0 };

    /// The number with which it was made, among the objects of its kind.
    fn number(&self) -> u32
        ensures { result ≡ own_number (built self.now).object };

    /// Whether the call would add an entry.
    fn admits(&self, call: &Self::Call) -> bool
        ensures admitted { result ≡ admitted self.now call.now }
        ensures state { follows self.now };

    /// What the history reads of the entry that the call would add. A gate that is granted or closed
    /// is one of the object's own.
    fn sign(&self, call: &Self::Call) -> Sign
        requires { admitted self.now call.now ≡ true }
        ensures sign { result ≡ sign_of (content self.now call.now).what }
        ensures gates { fits self.now call.now (entries self.now) → NamesOwnGate (built self.now).gates result };

    /// Makes the call. One that is admitted adds its entry at this position; one that isn't gets the
    /// position 0 and adds none. It takes no memory.
    fn apply(&mut self, tokens: &Tokens, position: u64, call: Self::Call) -> Self::Reply
        requires tokens { ForSome (built self.old).book (λ b. b.0 ≡ tokens.now) }
        requires fits { fits self.old call (entries self.old) }
        requires admitted { admitted self.old call ≡ true →
            MayWrite (entries self.old) (room self.old) (bytes_left self.old) position (cost call) }
        requires refused { admitted self.old call ≡ false → position ≡ 0 }
        ensures built { built self.new ≡ built self.old }
        ensures state { follows self.new }
        ensures entry { admitted self.old call ≡ true →
            entries self.new ≡ entries self.old ++ wrote position (content self.old call) ∷ [] }
        ensures room { admitted self.old call ≡ true → room self.new + 1 ≡ room self.old }
        ensures bytes { admitted self.old call ≡ true → bytes_left self.old ≤ bytes_left self.new + cost call }
        ensures no_entry { admitted self.old call ≡ false → entries self.new ≡ entries self.old }
        ensures no_room { admitted self.old call ≡ false →
            (room self.new ≡ room self.old) × (bytes_left self.new ≡ bytes_left self.old) }
        ensures answer { applied self.old position call result self.new }
        ensures items { Within (carried self.new ++ given self.old call result) (carried self.old ++ brought self.old call) };

    /// Its log.
    fn log(&self) -> &Log
        ensures { result.now.entries ≡ map (logged (built self.now).object) (entries self.now) };

    /// Its log may forget its entries, and those that come after them. Nothing else changes.
    fn forget(&mut self)
        ensures built { built self.new ≡ built self.old }
        ensures state { follows self.new }
        ensures entries { entries self.new ≡ entries self.old }
        ensures room { room self.new ≡ room self.old }
        ensures bytes { bytes_left self.new ≡ bytes_left self.old }
        ensures items { carried self.new ≡ carried self.old };

    /// How many entries it has room for.
    fn room(&self) -> u64
        ensures { result ≡ room self.now };

    /// The bytes that the call logs, as they count for a platform's logged data.
    fn cost(call: &Self::Call) -> u64
        ensures { result ≡ cost call.now };

    /// For how many bytes its log has room.
    fn bytes_left(&self) -> u64
        ensures { result ≡ bytes_left self.now };

    /// Where more entries are known, no fewer calls fit.
    ghost more_fit: { (o : Self) (call : Self.Call) (xs ys : List Written) →
        Within xs ys → fits o call xs → fits o call ys };
}

/// What the world of a law says of objects of one type: how the object of each number is built, and
/// which known entries vouch for an item of a transaction at the object of a number. Items may keep
/// tokens, so vouching names their table.
pub trait World<G, O: Object> {
    ghost use Rattle.std.specs.Prelude.{ℕ, List};
    ghost use Rattle.atomic_table.specs.Seated.{TableId};
    ghost use Rattle.view_lists.specs.Lists.{Within};
    ghost use Rattle.one_history.specs.declared.entry.Entry.{Entry};
    ghost use Rattle.tlm_types.specs.declared.words.TxnId.{TxnId};
    ghost use Rattle.tlm_types.specs.declared.entry.Content.{Content};
    ghost use Rattle.shared_object.specs.Written.{Built};

    /// The object of this number is built so.
    ghost builds: { G → ℕ → Built O.Made → Type 0 };

    /// These entries vouch for the item.
    ghost vouches: { G → TableId → ℕ → TxnId → O.Item → List (Entry Content) → Type 0 };

    /// More entries vouch for no less.
    ghost more_vouch: { (world : G) (tokens : TableId) (number : ℕ) (txn : TxnId) (item : O.Item) (xs ys : List (Entry Content)) →
        Within xs ys → vouches world tokens number txn item xs → vouches world tokens number txn item ys };
}

impl<G, O: Object> World<G, O> for NoLaw {
    ghost builds = { λ _ _ _. Unit {0} };

    ghost vouches = { λ _ _ _ _ _ _. Unit {0} };

    ghost more_vouch = { λ _ _ _ _ _ _ _ _ _. tt };
}
