// What is kept under a lock or in a cell.
ghost use Rattle.std.specs.Prelude.{◌≡◌, ℕ, ◌+◌, ◌<◌, ◌≤◌, [], ◌∷◌, ◌++◌, length, slice_index_or, map, true, false, IfSome, MatchOption, Some, None};
ghost use Rattle.std.specs.Option.{ForSome, unwrap_or};
ghost use Rattle.one_history.specs.Moves.{entry, number_of, own_of, KnowsOwn, IsAtGate, drawn, copied, one_gone, left, fresh};
ghost use Rattle.one_history.specs.Gates.{total_gates, stays_of};
ghost use Rattle.token_book.specs.Account.{out_of};
ghost use Rattle.shared_object.specs.Written.{sign_of, own_number, wrote, placed, written_at};
ghost use Rattle.shared_object.specs.Standing.{place, HasGates, IsBuiltFor, Meets, AreVouched, IsSeat, IsBook, IsDrawn};
ghost use Rattle.shared_object.specs.Steps.{IsNote, IsNoteAt, HasTicket, left_if, unspent, Enters};

use crate::naming::Naming;
use crate::object::{Object, World};
use one_history::{Drawn, History, Law, Looked, Note, ObjectSeat};
use std::marker::{Brand, Model, PhantomData};
use tlm_types::Content;
use token_book::{Book, Ticket, Tokens};

// Names the content of an entry.
trait Said {
    ghost use Rattle.tlm_types.specs.declared.entry.Content.{Content};

    ghost content: { Content };
}

impl Said for Brand {
    ghost use Rattle.tlm_types.specs.declared.entry.What.TheVariants.{Take};

    ghost content = { record { txn = record { initiator = 0; seq = 0 }; time = 0; what = Take 0; number = 0 } };
}

// The entry that is drawn has this content.
struct Says<D> {
    of: PhantomData<D>,
}

impl<D: Said> Drawn<Content> for Says<D> {
    ghost content = { D.content };
}

// The call picks D's content, which is that of the object's call.
#[inline(always)]
fn draw_for<O: Object, G, W: Law<Content, G>, D: Said>(
    history: &History<Content, G, W>,
    seat: &mut ObjectSeat<Content, G, W>,
    object: &O,
    call: &O::Call,
) -> u64
    requires pick { D.content ≡ O.content object.now call.now }
    requires admitted { O.admitted object.now call.now ≡ true }
    requires seat { seat.old.table ≡ history.now.table }

    // The entry may be drawn.
    requires planned { length (own_of seat.old.knows) < slice_index_or history.now.frame.planned (number_of seat.old.knows) 0 }
    requires backed { (p : ℕ) → seat.old.knows.seen ≤ p → KnowsOwn seat.old.knows →
        W.backs history.now.frame.world seat.old.knows.known
        (placed (number_of seat.old.knows) (wrote p (O.content object.now call.now))) }
    requires fits { KnowsOwn seat.old.knows → O.fits object.now call.now (O.entries object.now) }
    requires gates { HasGates history.now.frame (number_of seat.old.knows) (O.built object.now).gates }
    requires at { KnowsOwn seat.old.knows → IsAtGate seat.old.knows (sign_of (O.content object.now call.now).what) }

    // It was drawn, past all that the seat had seen.
    ensures table { seat.new.table ≡ seat.old.table }
    ensures after { seat.old.knows.seen ≤ result }
    ensures below { result < 1000000 }
    ensures drawn { seat.new.knows ≡ drawn seat.old.knows
        (placed (number_of seat.old.knows) (wrote result (O.content object.now call.now))) }
    ensures number { number_of seat.new.knows ≡ number_of seat.old.knows }
    ensures own { own_of seat.new.knows ≡ own_of seat.old.knows
        ++ placed (number_of seat.old.knows) (wrote result (O.content object.now call.now)) ∷ [] }
    ensures mine { KnowsOwn seat.old.knows }
{
    let sign = object.sign(call);
    history.draw::<Says<D>>(seat, sign)
}

// The call picks D's number, which is that of the reply.
#[inline(always)]
fn copy_for<O: Object, G, W: Law<Content, G>, D: Looked>(
    history: &History<Content, G, W>,
    seat: &mut ObjectSeat<Content, G, W>,
    _reply: &O::Reply,
) -> Note<Content, G, W>
    requires pick { D.number ≡ O.look _reply.now }
    requires seat { seat.old.table ≡ history.now.table }
    requires notes { length seat.old.knows.stays + 1 ≤ seat.old.knows.notes }
    ensures table { (seat.new.table ≡ seat.old.table) × (result.table ≡ seat.old.table) }
    ensures seat { seat.new.knows ≡ one_gone seat.old.knows }
    ensures note { result.knows ≡ copied (O.look _reply.now) seat.old.knows }
{
    history.copy::<D>(seat)
}

// Where the call is admitted, its ticket goes into the book and its entry is drawn. Else nothing is.
#[inline(always)]
fn enter<O: Object, G, W: Law<Content, G>>(
    history: &History<Content, G, W>,
    tickets: &Tokens,
    object: &O,
    seat: &mut ObjectSeat<Content, G, W>,
    book: &mut Book,
    ticket: Option<Ticket>,
    call: &O::Call,
) -> (Option<u64>, Option<Ticket>)
    requires seat { seat.old.table ≡ history.now.table }
    requires book { (book.old.table ≡ tickets.now) × (book.old.owner ≡ number_of seat.old.knows) }
    requires planned { length (own_of seat.old.knows) + out_of 0 book.old.out
        ≡ slice_index_or history.now.frame.planned (number_of seat.old.knows) 0 }

    // An admitted call may be drawn.
    requires ticket { O.admitted object.now call.now ≡ true → O.follows object.now →
        HasTicket tickets.now book.old.owner (O.cost call.now) ticket }
    requires backed { (p : ℕ) → O.admitted object.now call.now ≡ true → O.follows object.now →
        seat.old.knows.seen ≤ p → KnowsOwn seat.old.knows →
        W.backs history.now.frame.world seat.old.knows.known
        (placed (number_of seat.old.knows) (wrote p (O.content object.now call.now))) }
    requires fits { KnowsOwn seat.old.knows → O.fits object.now call.now (O.entries object.now) }
    requires gates { HasGates history.now.frame (number_of seat.old.knows) (O.built object.now).gates }
    requires at { O.admitted object.now call.now ≡ true → O.follows object.now → KnowsOwn seat.old.knows →
        IsAtGate seat.old.knows (sign_of (O.content object.now call.now).what) }

    // The seat and the book are whose they were.
    ensures table { (seat.new.table ≡ seat.old.table) × (number_of seat.new.knows ≡ number_of seat.old.knows) }
    ensures book { (book.new.table ≡ book.old.table) × (book.new.owner ≡ book.old.owner) }
    ensures state { O.follows object.now }
    ensures mine { KnowsOwn seat.old.knows }

    // An admitted call was drawn, and a ticket spent; any other left all as it was.
    ensures ticket { result.1 ≡ unspent result.0 ticket }
    ensures when { MatchOption result.0 (O.admitted object.now call.now ≡ false)
        (λ _. O.admitted object.now call.now ≡ true) }
    ensures drawn { MatchOption result.0 (seat.new.knows ≡ seat.old.knows)
        (λ p. IsDrawn (O.content object.now call.now) p seat.old.knows seat.new.knows) }
    ensures retired { MatchOption result.0 (book.new.out ≡ book.old.out)
        (λ _. (out_of 0 book.new.out + 1 ≡ out_of 0 book.old.out)
        × (out_of 1 book.new.out + O.cost call.now ≤ out_of 1 book.old.out)) }
{
    if !object.admits(call) {
        history.recall(seat);
        return (None, ticket);
    }
    let Some(ticket) = ticket else { unreachable!() };
    ticket.retire(tickets, book);
    let position = draw_for::<O, G, W, Brand>(history, seat, object, call);
    (Some(position), None)
}

// The seat leaves the gate, if there is one.
#[inline(always)]
fn leave_if<G, W: Law<Content, G>>(
    history: &History<Content, G, W>,
    seat: &mut ObjectSeat<Content, G, W>,
    gate: Option<u32>,
)
    requires seat { seat.old.table ≡ history.now.table }
    requires gate { IfSome gate (λ g. g < total_gates history.now.frame) }
    requires stay { IfSome gate (λ g. 1 ≤ stays_of g seat.old.knows) }
    ensures table { seat.new.table ≡ seat.old.table }
    ensures left { seat.new.knows ≡ left_if gate seat.old.knows }
{
    if let Some(gate) = gate {
        history.leave(seat, gate);
    }
}

/// What a step answers.
pub struct Stepped<O: Object, G, W> {
    /// The object's reply.
    pub reply: O::Reply,
    /// The position of the entry that was added, if one was.
    pub position: Option<u64>,
    /// A note that knows all that the object has written.
    pub note: Note<Content, G, W>,
    /// The ticket, if no entry was added.
    pub ticket: Option<Ticket>,
}

/// An object, its seat and its book of tickets. Contracts see the object and its number in the history.
pub struct Locked<O: Object, G, W: Law<Content, G> + World<G, O>, N: Naming<G, W>> {
    object: O,
    seat: ObjectSeat<Content, G, W>,
    book: Book,
    of: PhantomData<N>,
}

impl<O: Object, G, W: Law<Content, G> + World<G, O>, N: Naming<G, W>> Model for Locked<O, G, W, N> {
    ghost use Rattle.std.specs.Prelude.{◌≡◌, ◌+◌, length, slice_index_or};
    ghost use Rattle.shared_object.specs.Written.{own_number};
    ghost use Rattle.shared_object.specs.Standing.{Numbered, place, IsBuiltFor, AreVouched, IsSeat, IsBook};

    ghost Value = { Numbered O };

    ghost view = { λ l. record { number = l.book.owner; object = l.object } };

    ghost invariant = { λ l.
        IsBuiltFor W.builds (place N.frame N.tokens l.book.owner (own_number (O.built l.object).object)) (O.built l.object)
        × IsSeat N.table N.frame l.book.owner (O.entries l.object) l.seat
        × IsBook N.tokens l.book.owner (O.room l.object) (O.bytes_left l.object) l.book
        × (length (O.entries l.object) + O.room l.object ≡ slice_index_or N.frame.planned l.book.owner 0)
        × AreVouched (W.vouches N.frame.world N.tokens l.book.owner) (O.carried l.object) l.seat.knows.known };
}

impl<O: Object + Drop, G, W: Law<Content, G> + World<G, O>, N: Naming<G, W>> Drop
    for Locked<O, G, W, N> {
    fn drop(self) {
        let Locked {
            object: _object,
            seat: _seat,
            book: _book,
            of: _,
        } = self;
    }
}

impl<O: Object, G, W: Law<Content, G> + World<G, O>, N: Naming<G, W>> Locked<O, G, W, N> {
    pub(crate) fn new(object: O, seat: ObjectSeat<Content, G, W>, book: Book) -> Locked<O, G, W, N>
        requires seat { (seat.table ≡ N.table) × (seat.knows ≡ fresh N.frame book.owner) }
        requires book { IsBook N.tokens book.owner (O.room object) (O.bytes_left object) book }
        requires empty { (O.entries object ≡ []) × (O.carried object ≡ []) }
        requires room { O.room object ≡ slice_index_or N.frame.planned book.owner 0 }
        requires built { let at = place N.frame N.tokens book.owner (own_number (O.built object).object) in
            IsBuiltFor W.builds at (O.built object) }
        ensures { result ≡ record { number = book.owner; object = object } }
    {
        Locked {
            object,
            seat,
            book,
            of: PhantomData,
        }
    }

    /// The object's number in the history.
    pub(crate) fn number(&self) -> u32
        ensures { result ≡ self.now.number }
    {
        self.book.owner()
    }

    /// The object's own number.
    pub(crate) fn own_number(&self) -> u32
        ensures { result ≡ own_number (O.built self.now.object).object }
    {
        self.object.number()
    }

    /// One call: it joins the note, draws where the call is admitted, leaves the gate that the
    /// note is inside, if there is one, applies, and copies a note.
    #[inline(always)]
    pub(crate) fn step(
        &mut self,
        history: &History<Content, G, W>,
        tickets: &Tokens,
        note: Note<Content, G, W>,
        ticket: Option<Ticket>,
        gate: Option<u32>,
        call: O::Call,
    ) -> Stepped<O, G, W>
        // What is handed in is of one history.
        requires history { (history.now.table ≡ N.table) × (history.now.frame ≡ N.frame) }
        requires tickets { tickets.now ≡ N.tokens }
        requires note { IsNoteAt N.table gate note }
        requires gate { IfSome gate (λ g. g < total_gates N.frame) }

        // Whatever state the object is in, by what the note knows, the call may be made.
        requires ticket { let at = place N.frame N.tokens self.old.number (own_number (O.built self.old.object).object) in
            (o : O) → IsBuiltFor W.builds at (O.built o) → O.follows o → O.admitted o call ≡ true →
            HasTicket N.tokens self.old.number (O.cost call) ticket }
        requires fits { let at = place N.frame N.tokens self.old.number (own_number (O.built self.old.object).object) in
            (o : O) → IsBuiltFor W.builds at (O.built o) → O.fits o call (written_at self.old.number note.knows.known) }
        requires backed { let at = place N.frame N.tokens self.old.number (own_number (O.built self.old.object).object) in
            (o : O) (p : ℕ) → Meets W.builds O.built O.entries O.follows at note.knows.known o →
            O.admitted o call ≡ true → note.knows.seen ≤ p →
            W.backs N.frame.world (map (placed self.old.number) (O.entries o) ++ note.knows.known)
            (placed self.old.number (wrote p (O.content o call))) }
        requires gates { let at = place N.frame N.tokens self.old.number (own_number (O.built self.old.object).object) in
            (o : O) → Meets W.builds O.built O.entries O.follows at note.knows.known o →
            O.admitted o call ≡ true → IsAtGate note.knows (sign_of (O.content o call).what) }
        requires vouched { let at = place N.frame N.tokens self.old.number (own_number (O.built self.old.object).object) in
            (o : O) → Meets W.builds O.built O.entries O.follows at note.knows.known o →
            AreVouched (W.vouches N.frame.world N.tokens self.old.number) (O.brought o call) note.knows.known }

        // What it answers.
        ensures answer { let at = place N.frame N.tokens self.old.number (own_number (O.built self.old.object).object) in
            let s = result in (before : O) × (after : O)
            × Meets W.builds O.built O.entries O.follows at note.knows.known before
            × Enters N.frame self.old.number (O.entries before) (O.entries after) (O.admitted before call)
            (O.content before call) note.knows s.note.knows s.position
            × O.applied before (unwrap_or s.position 0) call s.reply after
            × O.follows after
            × AreVouched (W.vouches N.frame.world N.tokens self.old.number) (O.given before call s.reply) s.note.knows.known }
        ensures note { IsNote N.table result.note }
        ensures look { result.note.knows.looks ≡ note.knows.looks ++ (self.old.number, O.look result.reply) ∷ [] }
        ensures ticket { result.ticket ≡ unspent result.position ticket }
    {
        history.take_in(&mut self.seat, note);
        let (position, ticket) = enter(
            history,
            tickets,
            &self.object,
            &mut self.seat,
            &mut self.book,
            ticket,
            &call,
        );
        leave_if(history, &mut self.seat, gate);
        let reply = self.object.apply(tickets, position.unwrap_or(0), call);
        let note = copy_for::<O, G, W, Brand>(history, &mut self.seat, &reply);
        Stepped {
            reply,
            position,
            note,
            ticket,
        }
    }

    /// The object's log may forget the entries that it has in store. Nothing is drawn.
    pub(crate) fn forget(&mut self)
        ensures number { self.new.number ≡ self.old.number }
        ensures built { O.built self.new.object ≡ O.built self.old.object }
        ensures entries { O.entries self.new.object ≡ O.entries self.old.object }
    {
        self.object.forget();
    }

    /// The object, its seat and its book.
    pub(crate) fn into_parts(self) -> (O, ObjectSeat<Content, G, W>, Book)
        ensures object { result.0 ≡ self.object }
        ensures built { IsBuiltFor W.builds (place N.frame N.tokens self.number (own_number (O.built result.0).object)) (O.built result.0) }
        ensures seat { IsSeat N.table N.frame self.number (O.entries result.0) result.1 }
        ensures book { IsBook N.tokens self.number (O.room result.0) (O.bytes_left result.0) result.2 }
        ensures planned { length (O.entries result.0) + O.room result.0 ≡ slice_index_or N.frame.planned self.number 0 }
        ensures vouched { AreVouched (W.vouches N.frame.world N.tokens self.number) (O.carried result.0) result.1.knows.known }
    {
        let Locked {
            object,
            seat,
            book,
            of: _,
        } = self;
        (object, seat, book)
    }
}
