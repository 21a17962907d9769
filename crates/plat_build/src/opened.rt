// The history of a plan and its tokens, before its net is built.
ghost use Rattle.std.specs.Prelude.{◌≡◌, IfOk};
ghost use Rattle.plat_net.specs.Objects.{frame_of};
ghost use Rattle.plat_build.specs.Opened.{AreAllSupplies, IsFirstNote};

use crate::objects::{gates_of, notes_of, objects_of, planned_of};
use plat_net::{PlatHistory, PlatNote, PlatSeat, TlmLaw};
use route_plan::Plan;
use shared_object::Naming;
use std::alloc::Global;
use std::marker::Model;
use tlm_types::Memory;
use token_book::{Book, Tokens};

/// The history of a plan, empty, with the seats of its objects, and their books of tokens. Contracts see
/// the tables of both, and what the history was made with.
#[derive(Drop)]
pub struct Opened {
    history: PlatHistory,
    seats: Vec<PlatSeat>,
    note: PlatNote,
    tickets: Tokens,
    books: Vec<Book>,
}

/// What was opened: the history, the seats of its objects, the note that stands for all that are wanted, and the tokens
/// with their books.
#[derive(Drop)]
pub(crate) struct OpenedParts {
    pub history: PlatHistory,
    pub seats: Vec<PlatSeat>,
    pub note: PlatNote,
    pub tickets: Tokens,
    pub books: Vec<Book>,
}

impl Model for Opened {
    ghost use Rattle.plat_build.specs.Opened.{OpenedView, IsOpened};

    ghost Value = { OpenedView };

    ghost view = { λ o. record { table = o.history.table; frame = o.history.frame; tokens = o.tickets } };

    ghost invariant = { λ o. IsOpened o.history.table o.tickets o.history.frame o.seats.items o.note o.books.items };
}

impl Opened {
    /// The history and the tokens of a plan. The objects are the memories, then the hops, then the pools
    /// of the four-phase initiators, each in order. The tokens have two owners for each object: first
    /// those of the tickets, in the order of the objects, and then in the same order those of what a hop
    /// or a pool hands out. Its only error is want of memory.
    pub fn new(alloc: Global, plan: &Plan) -> Result<Opened, Memory>
        ensures { IfOk result (λ o. o.frame ≡ frame_of plan.now) }
    {
        let objects = objects_of(alloc, plan)?;
        let planned = planned_of(alloc, plan, objects.as_slice())?;
        let gates = gates_of(alloc, plan.platform(), objects.as_slice())?;
        let notes = notes_of(plan);
        let made = PlatHistory::new(alloc, plan, planned.as_slice(), gates.as_slice(), notes);
        let (history, seats, note) = made?;
        let (tickets, books) = Tokens::new(alloc, 2 * objects.len() as u32)?;
        Ok(Opened {
            history,
            seats,
            note,
            tickets,
            books,
        })
    }

    /// Its parts, where it was opened for this plan.
    pub(crate) fn into_parts<N: Naming<Plan, TlmLaw>>(self, plan: &Plan) -> OpenedParts
        requires history { (self.table ≡ N.table) × (self.frame ≡ N.frame) }
        requires tickets { self.tokens ≡ N.tokens }
        requires plan { plan.now ≡ N.frame.world }
        ensures frame { N.frame ≡ frame_of plan.now }
        ensures history { (result.history.table ≡ N.table) × (result.history.frame ≡ N.frame) }
        ensures tickets { result.tickets ≡ N.tokens }
        ensures supplies { AreAllSupplies N.table N.tokens N.frame plan.now result.seats.items result.books.items }
        ensures note { IsFirstNote N.table plan.now.platform result.note }
    {
        let _ = plan.platform();
        let Opened {
            history,
            seats,
            note,
            tickets,
            books,
        } = self;
        OpenedParts {
            history,
            seats,
            note,
            tickets,
            books,
        }
    }
}
