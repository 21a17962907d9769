// What is gathered once all jobs have finished, and the room for it, which is made before the first turn.
ghost use Rattle.std.specs.Prelude.{◌≡◌, true, All, length, IfOk};
ghost use Rattle.run_queue.specs.Queue.{AreNumbered};
ghost use Rattle.plat_run.specs.Actors.{is_done, number_of};
ghost use Rattle.plat_run.specs.HandedIn.{AwaitsAll};
ghost use Rattle.plat_end.specs.End.{AreFinished};

use crate::actor::Actor;
use plat_net::{PlatNote, TlmLaw};
use route_plan::Plan;
use shared_object::Naming;
use std::alloc::Global;
use tlm_types::{EndOf, Memory};
use token_book::Wallet;

/// What the jobs leave: how each initiator ended, its wallet, and its note.
#[derive(Drop)]
pub(crate) struct HandedIn {
    pub ends: Vec<EndOf>,
    pub wallets: Vec<Wallet>,
    pub notes: Vec<PlatNote>,
}

impl HandedIn {
    /// Nothing yet, with room for what so many initiators leave. Its only error is want of memory.
    pub(crate) fn with_room(alloc: Global, count: u32) -> Result<HandedIn, Memory>
        ensures { IfOk result (AwaitsAll count) }
    {
        let count = count as usize;
        let ends = Vec::with_capacity(alloc, count)?;
        let wallets = Vec::with_capacity(alloc, count)?;
        let notes = Vec::with_capacity(alloc, count)?;
        Ok(HandedIn {
            ends,
            wallets,
            notes,
        })
    }
}

/// What all jobs leave, which have finished and stand in order. It is put where room was made for it.
pub(crate) fn hand_in<N: Naming<Plan, TlmLaw>>(jobs: Vec<Actor<N>>, handed: HandedIn) -> HandedIn
    requires numbered { AreNumbered number_of jobs.items }
    requires done { All (λ job. is_done job ≡ true) jobs.items }
    requires room { AwaitsAll (length jobs.items) handed }
    ensures { AreFinished N.table N.tokens N.frame.world (length jobs.items) result.ends.items result.wallets.items result.notes.items }
{
    let HandedIn {
        mut ends,
        mut wallets,
        mut notes,
    } = handed;
    for job in jobs {
        let (end, wallet, note) = job.finish();
        ends.push_reserved(end);
        wallets.push_reserved(wallet);
        notes.push_reserved(note);
    }
    HandedIn {
        ends,
        wallets,
        notes,
    }
}
