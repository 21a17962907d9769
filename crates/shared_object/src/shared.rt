// An object, by its numbers.
ghost use Rattle.std.specs.Prelude.{◌≡◌, ℕ, ◌+◌, ◌<◌, ◌≤◌, [], ◌∷◌, ◌++◌, length, slice_index_or, map, true, Some, vec_capacity};
ghost use Rattle.std.specs.Option.{unwrap_or};
ghost use Rattle.one_history.specs.Moves.{IsAtGate, fresh};
ghost use Rattle.one_history.specs.Gates.{total_gates};
ghost use Rattle.shared_object.specs.Written.{own_number, sign_of, wrote, placed, written_at};
ghost use Rattle.shared_object.specs.Standing.{place, IsBuiltFor, Meets, AreVouched, IsSeat, IsBook};
ghost use Rattle.shared_object.specs.Steps.{IsNote, IsInside, HasTicket, unspent, Enters};

use crate::keeper::{Keeper, wait_without_end};
use crate::locked::{Locked, Stepped};
use crate::naming::Naming;
use crate::object::{Object, World};
use one_history::{History, Law, Note, ObjectSeat};
use std::marker::{Model, PhantomData};
use std::sync::Wait;
use tlm_types::Content;
use token_book::{Book, Ticket, Tokens};

/// An object with its seat in the history and its book of tickets, under a lock or in a cell. Contracts see
/// its number in the history and its own number.
pub struct Shared<
    O: Object,
    G,
    W: Law<Content, G> + World<G, O>,
    N: Naming<G, W>,
    L: Keeper<Locked<O, G, W, N>>,
> {
    keeper: L,
    number: u32,
    own: u32,
    of: PhantomData<(O, G, W, N)>,
}

impl<
    O: Object,
    G,
    W: Law<Content, G> + World<G, O>,
    N: Naming<G, W>,
    L: Keeper<Locked<O, G, W, N>>,
> Model for Shared<O, G, W, N, L> {
    ghost use Rattle.shared_object.specs.Standing.{Numbers};

    ghost Value = { Numbers };

    ghost view = { λ s. record { number = s.number; own = s.own } };
}

// Written out, so that crates above call it and needn't prove again how each part is let go of.
impl<
    O: Object,
    G,
    W: Law<Content, G> + World<G, O>,
    N: Naming<G, W>,
    L: Keeper<Locked<O, G, W, N>> + Drop,
> Drop for Shared<O, G, W, N, L> {
    fn drop(self) {
        let Shared {
            keeper: _keeper,
            number: _,
            own: _,
            of: _,
        } = self;
    }
}

impl<
    O: Object,
    G,
    W: Law<Content, G> + World<G, O>,
    N: Naming<G, W>,
    L: Keeper<Locked<O, G, W, N>>,
> Shared<O, G, W, N, L> {
    /// The object with its seat and its book. Object and seat are empty. The object is built as the
    /// world says, and its room, its planned number and the tickets that are out are equal.
    pub fn new(object: O, seat: ObjectSeat<Content, G, W>, book: Book) -> Shared<O, G, W, N, L>
        requires seat { (seat.table ≡ N.table) × (seat.knows ≡ fresh N.frame book.owner) }
        requires book { IsBook N.tokens book.owner (O.room object) (O.bytes_left object) book }
        requires empty { (O.entries object ≡ []) × (O.carried object ≡ []) }
        requires room { O.room object ≡ slice_index_or N.frame.planned book.owner 0 }
        requires built { let at = place N.frame N.tokens book.owner (own_number (O.built object).object) in
            IsBuiltFor W.builds at (O.built object) }
        ensures { result ≡ record { number = book.owner; own = own_number (O.built object).object } }
    {
        let number = book.owner();
        let own = object.number();
        Shared {
            keeper: L::keep(Locked::new(object, seat, book)),
            number,
            own,
            of: PhantomData,
        }
    }

    /// The same object, which another keeper keeps from now on.
    pub fn kept_by<M: Keeper<Locked<O, G, W, N>>>(self) -> Shared<O, G, W, N, M>
        ensures { result ≡ self }
    {
        let Shared {
            keeper,
            number,
            own,
            of: _,
        } = self;
        Shared {
            keeper: M::keep(keeper.into_value()),
            number,
            own,
            of: PhantomData,
        }
    }

    /// The object's number in the history.
    pub fn number(&self) -> u32
        ensures { result ≡ self.now.number }
    {
        self.number
    }

    /// The number with which the object was made, among the objects of its kind.
    pub fn own_number(&self) -> u32
        ensures { result ≡ self.now.own }
    {
        self.own
    }

    /// Makes one call on the object, alone with it. The note, which is inside no gate, is handed in and
    /// comes back, knowing all that the object has written. Where the call is admitted, its entry is drawn
    /// in the history and added to the log, and the ticket is spent; else the ticket comes back, and
    /// nothing was added. An entry is no direct access, and a closing's gate is drained to the note. The
    /// reply is what the object's `apply` gives in a state that its log so far gives. It takes no memory.
    #[inline(always)]
    pub fn step<R: Wait>(
        &self,
        rt: &R,
        history: &History<Content, G, W>,
        tickets: &Tokens,
        note: Note<Content, G, W>,
        ticket: Option<Ticket>,
        call: O::Call,
    ) -> Stepped<O, G, W>
        // What is handed in is of one history.
        requires history { (history.now.table ≡ N.table) × (history.now.frame ≡ N.frame) }
        requires tickets { tickets.now ≡ N.tokens }
        requires note { IsNote N.table note }

        // Whatever state the object is in, by what the note knows, the call may be made.
        requires ticket { let at = place N.frame N.tokens self.now.number self.now.own in
            (o : O) → IsBuiltFor W.builds at (O.built o) → O.follows o → O.admitted o call ≡ true →
            HasTicket N.tokens self.now.number (O.cost call) ticket }
        requires fits { let at = place N.frame N.tokens self.now.number self.now.own in
            (o : O) → IsBuiltFor W.builds at (O.built o) → O.fits o call (written_at self.now.number note.knows.known) }
        requires backed { let at = place N.frame N.tokens self.now.number self.now.own in
            (o : O) (p : ℕ) → Meets W.builds O.built O.entries O.follows at note.knows.known o →
            O.admitted o call ≡ true → note.knows.seen ≤ p →
            W.backs N.frame.world (map (placed self.now.number) (O.entries o) ++ note.knows.known)
            (placed self.now.number (wrote p (O.content o call))) }
        requires gates { let at = place N.frame N.tokens self.now.number self.now.own in
            (o : O) → Meets W.builds O.built O.entries O.follows at note.knows.known o →
            O.admitted o call ≡ true → IsAtGate note.knows (sign_of (O.content o call).what) }
        requires vouched { let at = place N.frame N.tokens self.now.number self.now.own in
            (o : O) → Meets W.builds O.built O.entries O.follows at note.knows.known o →
            AreVouched (W.vouches N.frame.world N.tokens self.now.number) (O.brought o call) note.knows.known }

        // What it answers.
        ensures answer { let at = place N.frame N.tokens self.now.number self.now.own in
            let s = result in (before : O) × (after : O)
            × Meets W.builds O.built O.entries O.follows at note.knows.known before
            × Enters N.frame self.now.number (O.entries before) (O.entries after) (O.admitted before call)
            (O.content before call) note.knows s.note.knows s.position
            × O.applied before (unwrap_or s.position 0) call s.reply after
            × O.follows after
            × AreVouched (W.vouches N.frame.world N.tokens self.now.number) (O.given before call s.reply) s.note.knows.known }
        ensures note { IsNote N.table result.note }
        ensures look { result.note.knows.looks ≡ note.knows.looks ++ (self.now.number, O.look result.reply) ∷ [] }
        ensures ticket { result.ticket ≡ unspent result.position ticket }
    {
        let mut entered = self.keeper.enter(rt);
        let locked = entered.value_mut();
        if locked.number() != self.number || locked.own_number() != self.own {
            wait_without_end(rt)
        }
        locked.step(history, tickets, note, ticket, None, call)
    }

    /// Makes one call on the object, as `step` does, with a note that is inside a gate, which it leaves
    /// after the draw and before the copy: the note that comes back is inside none. An entry that is
    /// added is a direct access through this gate, or has a sign that needs no gate.
    #[inline(always)]
    pub fn step_leaving<R: Wait>(
        &self,
        rt: &R,
        history: &History<Content, G, W>,
        tickets: &Tokens,
        note: Note<Content, G, W>,
        ticket: Ticket,
        gate: u32,
        call: O::Call,
    ) -> Stepped<O, G, W>
        // What is handed in is of one history.
        requires history { (history.now.table ≡ N.table) × (history.now.frame ≡ N.frame) }
        requires tickets { tickets.now ≡ N.tokens }
        requires note { IsInside N.table gate note }
        requires gate { gate < total_gates N.frame }

        // Whatever state the object is in, by what the note knows, the call may be made.
        requires ticket { let at = place N.frame N.tokens self.now.number self.now.own in
            (o : O) → IsBuiltFor W.builds at (O.built o) → O.follows o → O.admitted o call ≡ true →
            HasTicket N.tokens self.now.number (O.cost call) (Some ticket) }
        requires fits { let at = place N.frame N.tokens self.now.number self.now.own in
            (o : O) → IsBuiltFor W.builds at (O.built o) → O.fits o call (written_at self.now.number note.knows.known) }
        requires backed { let at = place N.frame N.tokens self.now.number self.now.own in
            (o : O) (p : ℕ) → Meets W.builds O.built O.entries O.follows at note.knows.known o →
            O.admitted o call ≡ true → note.knows.seen ≤ p →
            W.backs N.frame.world (map (placed self.now.number) (O.entries o) ++ note.knows.known)
            (placed self.now.number (wrote p (O.content o call))) }
        requires gates { let at = place N.frame N.tokens self.now.number self.now.own in
            (o : O) → Meets W.builds O.built O.entries O.follows at note.knows.known o →
            O.admitted o call ≡ true → IsAtGate note.knows (sign_of (O.content o call).what) }
        requires vouched { let at = place N.frame N.tokens self.now.number self.now.own in
            (o : O) → Meets W.builds O.built O.entries O.follows at note.knows.known o →
            AreVouched (W.vouches N.frame.world N.tokens self.now.number) (O.brought o call) note.knows.known }

        // What it answers.
        ensures answer { let at = place N.frame N.tokens self.now.number self.now.own in
            let s = result in (before : O) × (after : O)
            × Meets W.builds O.built O.entries O.follows at note.knows.known before
            × Enters N.frame self.now.number (O.entries before) (O.entries after) (O.admitted before call)
            (O.content before call) note.knows s.note.knows s.position
            × O.applied before (unwrap_or s.position 0) call s.reply after
            × O.follows after
            × AreVouched (W.vouches N.frame.world N.tokens self.now.number) (O.given before call s.reply) s.note.knows.known }
        ensures note { IsNote N.table result.note }
        ensures look { result.note.knows.looks ≡ note.knows.looks ++ (self.now.number, O.look result.reply) ∷ [] }
        ensures ticket { result.ticket ≡ unspent result.position (Some ticket) }
    {
        let mut entered = self.keeper.enter(rt);
        let locked = entered.value_mut();
        if locked.number() != self.number || locked.own_number() != self.own {
            wait_without_end(rt)
        }
        locked.step(history, tickets, note, Some(ticket), Some(gate), call)
    }

    /// Makes one call on the object, as `step` does, for the only one who has it: no keeper is asked.
    #[inline(always)]
    pub fn step_alone<R: Wait>(
        &mut self,
        rt: &R,
        history: &History<Content, G, W>,
        tickets: &Tokens,
        note: Note<Content, G, W>,
        ticket: Option<Ticket>,
        call: O::Call,
    ) -> Stepped<O, G, W>
        // What is handed in is of one history.
        requires history { (history.now.table ≡ N.table) × (history.now.frame ≡ N.frame) }
        requires tickets { tickets.now ≡ N.tokens }
        requires note { IsNote N.table note }

        // Whatever state the object is in, by what the note knows, the call may be made.
        requires ticket { let at = place N.frame N.tokens self.old.number self.old.own in
            (o : O) → IsBuiltFor W.builds at (O.built o) → O.follows o → O.admitted o call ≡ true →
            HasTicket N.tokens self.old.number (O.cost call) ticket }
        requires fits { let at = place N.frame N.tokens self.old.number self.old.own in
            (o : O) → IsBuiltFor W.builds at (O.built o) → O.fits o call (written_at self.old.number note.knows.known) }
        requires backed { let at = place N.frame N.tokens self.old.number self.old.own in
            (o : O) (p : ℕ) → Meets W.builds O.built O.entries O.follows at note.knows.known o →
            O.admitted o call ≡ true → note.knows.seen ≤ p →
            W.backs N.frame.world (map (placed self.old.number) (O.entries o) ++ note.knows.known)
            (placed self.old.number (wrote p (O.content o call))) }
        requires gates { let at = place N.frame N.tokens self.old.number self.old.own in
            (o : O) → Meets W.builds O.built O.entries O.follows at note.knows.known o →
            O.admitted o call ≡ true → IsAtGate note.knows (sign_of (O.content o call).what) }
        requires vouched { let at = place N.frame N.tokens self.old.number self.old.own in
            (o : O) → Meets W.builds O.built O.entries O.follows at note.knows.known o →
            AreVouched (W.vouches N.frame.world N.tokens self.old.number) (O.brought o call) note.knows.known }
        ensures numbers { self.new ≡ self.old }

        // What it answers.
        ensures answer { let at = place N.frame N.tokens self.old.number self.old.own in
            let s = result in (before : O) × (after : O)
            × Meets W.builds O.built O.entries O.follows at note.knows.known before
            × Enters N.frame self.old.number (O.entries before) (O.entries after) (O.admitted before call)
            (O.content before call) note.knows s.note.knows s.position
            × O.applied before (unwrap_or s.position 0) call s.reply after
            × O.follows after
            × AreVouched (W.vouches N.frame.world N.tokens self.old.number) (O.given before call s.reply) s.note.knows.known }
        ensures note { IsNote N.table result.note }
        ensures look { result.note.knows.looks ≡ note.knows.looks ++ (self.old.number, O.look result.reply) ∷ [] }
        ensures ticket { result.ticket ≡ unspent result.position ticket }
    {
        let locked = self.keeper.value_mut();
        if locked.number() != self.number || locked.own_number() != self.own {
            wait_without_end(rt)
        }
        locked.step(history, tickets, note, ticket, None, call)
    }

    /// The object's log may forget its entries, and those that come after them, so that they can't be read any
    /// more. Contracts see no change: all that they say of the object's entries stays true.
    pub fn forget<R: Wait>(&self, rt: &R) {
        self.keeper.enter(rt).value_mut().forget();
    }

    /// The object, its seat and its book. The log stands in the seat, and a ticket is out for each
    /// entry that was planned and isn't there.
    pub fn into_parts<R: Wait>(self, rt: &R) -> (O, ObjectSeat<Content, G, W>, Book)
        ensures built { IsBuiltFor W.builds (place N.frame N.tokens self.number self.own) (O.built result.0) }
        ensures seat { IsSeat N.table N.frame self.number (O.entries result.0) result.1 }
        ensures book { IsBook N.tokens self.number (O.room result.0) (O.bytes_left result.0) result.2 }
        ensures planned { length (O.entries result.0) + O.room result.0 ≡ slice_index_or N.frame.planned self.number 0 }
        ensures vouched { AreVouched (W.vouches N.frame.world N.tokens self.number) (O.carried result.0) result.1.knows.known }
    {
        let Shared {
            keeper,
            number,
            own,
            of: _,
        } = self;
        let locked = keeper.into_value();
        if locked.number() != number || locked.own_number() != own {
            wait_without_end(rt)
        }
        locked.into_parts()
    }
}

/// The same objects in order, which other keepers keep from now on. It takes no memory: room was made for them.
pub fn kept_by_others<
    O: Object,
    G,
    W: Law<Content, G> + World<G, O>,
    N: Naming<G, W>,
    L: Keeper<Locked<O, G, W, N>> + Drop,
    M: Keeper<Locked<O, G, W, N>>,
>(
    objects: Vec<Shared<O, G, W, N, L>>,
    mut room: Vec<Shared<O, G, W, N, M>>,
) -> Vec<Shared<O, G, W, N, M>>
    requires empty { room.items ≡ [] }
    requires room { length objects.items ≤ vec_capacity room }
    ensures { result.items ≡ objects.items }
{
    for object in objects {
        room.push_reserved(object.kept_by());
    }
    room
}
