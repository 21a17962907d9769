// What the objects of a net are made with, one after the other.
ghost use Rattle.std.specs.Prelude.{◌≡◌, ◌+◌, ◌*◌, ◌<◌, ◌≤◌, length, IfOk};
ghost use Rattle.plat_build.specs.Kept.{AreFreshFrom, AreFreshBooksFrom};
ghost use Rattle.plat_net.specs.Objects.{HasObject};
ghost use Rattle.plat_build.specs.Supplies.{IsSupply};
ghost use Rattle.plat_build.specs.Tickets.{AreStocked};

use crate::wallets::issue_all;
use plat_net::{PlatSeat, TlmLaw};
use route_plan::Plan;
use shared_object::Naming;
use std::marker::{Model, PhantomData};
use tlm_types::{Memory, ObjectNo};
use token_book::{Book, Tokens, Wallet};

/// What one object is made with: its seat in the history, the book of its tickets, and the book of what
/// it hands out, which memories don't use.
#[derive(Drop)]
pub(crate) struct Supply {
    pub seat: PlatSeat,
    pub book: Book,
    pub second: Book,
}

/// The seats and the books of the objects that aren't made yet, in order, and the wallets of the
/// initiators with the tickets of those that are. Contracts see the number of the next object.
pub(crate) struct Supplies<N: Naming<Plan, TlmLaw>> {
    next: u32,
    seats: Vec<PlatSeat>,
    books: Vec<Book>,
    seconds: Vec<Book>,
    wallets: Vec<Wallet>,
    of: PhantomData<N>,
}

// Written out, so that each early return calls it.
impl<N: Naming<Plan, TlmLaw>> Drop for Supplies<N> {
    fn drop(self) {
        let Supplies {
            next: _,
            seats: _,
            books: _,
            seconds: _,
            wallets: _,
            of: _,
        } = self;
    }
}

impl<N: Naming<Plan, TlmLaw>> Model for Supplies<N> {
    ghost use Rattle.std.specs.Prelude.{ℕ};
    ghost use Rattle.plat_build.specs.Supplies.{AreSupplies};

    ghost Value = { ℕ };

    ghost view = { λ s. s.next };

    ghost invariant = { λ s. AreSupplies N.table N.tokens N.frame s.next s.seats.items s.books.items s.seconds.items s.wallets.items };
}

impl<N: Naming<Plan, TlmLaw>> Supplies<N> {
    /// Those of all objects, with empty wallets. Its only error is want of memory.
    pub(crate) fn new(
        seats: Vec<PlatSeat>,
        mut books: Vec<Book>,
        wallets: Vec<Wallet>,
    ) -> Result<Supplies<N>, Memory>
        requires seats { AreFreshFrom N.table N.frame 0 seats.items }
        requires books { AreFreshBooksFrom N.tokens 0 books.items }
        requires count { length seats.items ≡ length N.frame.planned }
        requires twice { length books.items ≡ 2 * length N.frame.planned }
        requires few { length N.frame.planned ≤ 336 }
        requires wallets { AreStocked N.tokens N.frame.world 0 wallets.items }
        ensures { IfOk result (λ supplies. supplies ≡ 0) }
    {
        let seconds = books.split_off(seats.len())?;
        Ok(Supplies {
            next: 0,
            seats,
            books,
            seconds,
            wallets,
            of: PhantomData,
        })
    }

    /// Those of the next object, whose tickets go to the wallets.
    pub(crate) fn hand_out(&mut self, plan: &Plan, tickets: &Tokens, object: ObjectNo) -> Supply
        requires plan { plan.now ≡ N.frame.world }
        requires tickets { tickets.now ≡ N.tokens }
        requires object { HasObject N.frame.world.platform self.old object }
        requires more { self.old < length N.frame.planned }
        ensures supply { IsSupply N.table N.tokens N.frame self.old object result }
        ensures next { self.new ≡ self.old + 1 }
    {
        let seat = self.seats.remove(0);
        let mut book = self.books.remove(0);
        let second = self.seconds.remove(0);
        issue_all(tickets, plan, object, &mut book, &mut self.wallets);
        self.next += 1;
        Supply { seat, book, second }
    }

    /// The wallets, with the tickets of all objects.
    pub(crate) fn into_wallets(self) -> Vec<Wallet>
        ensures { AreStocked N.tokens N.frame.world self result.items }
    {
        let Supplies {
            next: _,
            seats: _,
            books: _,
            seconds: _,
            wallets,
            of: _,
        } = self;
        wallets
    }
}
