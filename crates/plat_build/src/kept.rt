// What waits to be handed out: what each initiator starts with, and the notes of routers and memories.
ghost use Rattle.std.specs.Prelude.{◌≡◌, ◌+◌, ◌<◌, ◌≤◌, true, false, All, IsSome, length, map, replicate, slice_get, slice_set, is_some, IfOk, IsSomeAnd, OnOk};
ghost use Rattle.cargo_model.specs.Known.{objects_of};
ghost use Rattle.plat_build.specs.Kept.{all_waiting, AreBlank, AreStarts, IsBlank, IsStart};
ghost use Rattle.plat_net.specs.Objects.{notes_of};
ghost use Rattle.plat_build.specs.Tickets.{AreStocked, IsStocked};
ghost use Rattle.plat_build.specs.Unused.{HaveTicketsFrom};

use generic_payload::Payload;
use plat_net::{Net, PlatNote, Sharing, TlmLaw};
use route_plan::Plan;
use script_engine::Engine;
use shared_object::Naming;
use std::alloc::{AllocError, Global};
use std::marker::{Model, PhantomData};
use tlm_model::Style;
use tlm_types::Memory;
use token_book::Wallet;

/// What an initiator starts with: its script, its payload, a note that has seen nothing, and its tickets.
#[derive(Drop)]
pub struct Start {
    pub engine: Engine,
    pub payload: Payload,
    pub note: PlatNote,
    pub wallet: Wallet,
}

/// What was made with a net and waits to be handed out. Threads may share the net alone: a note is of one
/// thread at a time. Contracts see what still waits.
pub struct Kept<N: Naming<Plan, TlmLaw>> {
    starts: Vec<Option<Start>>,
    router_notes: Vec<Option<PlatNote>>,
    memory_notes: Vec<Option<PlatNote>>,
    of: PhantomData<N>,
}

// Written out, so that the crates above call it: how each part is let go of is proved here alone.
impl<N: Naming<Plan, TlmLaw>> Drop for Kept<N> {
    fn drop(self) {
        let Kept {
            starts: _,
            router_notes: _,
            memory_notes: _,
            of: _,
        } = self;
    }
}

impl<N: Naming<Plan, TlmLaw>> Model for Kept<N> {
    ghost use Rattle.std.specs.Prelude.{map, is_some};
    ghost use Rattle.plat_build.specs.Kept.{Waiting, AreStarts, AreBlank};

    ghost Value = { Waiting };

    ghost view = { λ k. record {
      starts = map (λ start. is_some start) k.starts.items;
      routers = map (λ note. is_some note) k.router_notes.items;
      memories = map (λ note. is_some note) k.memory_notes.items;
    } };

    ghost invariant = { λ k. AreStarts N.table N.tokens N.frame.world k.starts.items
        × AreBlank N.table k.router_notes.items × AreBlank N.table k.memory_notes.items };
}

impl<N: Naming<Plan, TlmLaw>> Kept<N> {
    /// All that waits when the net of a plan is built. Its only error is want of memory.
    pub(crate) fn new(
        alloc: Global,
        plan: &Plan,
        mut notes: Vec<PlatNote>,
        wallets: Vec<Wallet>,
    ) -> Result<Kept<N>, Memory>
        requires plan { plan.now ≡ N.frame.world }
        requires notes { All (IsBlank N.table) notes.items }
        requires count { length notes.items ≡ notes_of plan.now.platform }
        requires wallets { AreStocked N.tokens plan.now (length (objects_of plan.now.platform)) wallets.items }
        ensures { IfOk result (λ kept. kept ≡ all_waiting plan.now.platform) }
    {
        let platform = plan.platform();
        let memory_notes = take_notes::<N>(alloc, &mut notes, platform.memories.as_slice().len())?;
        let router_notes = take_notes::<N>(alloc, &mut notes, platform.routers.as_slice().len())?;
        let starts = make_starts::<N>(alloc, plan, notes, wallets)?;
        Ok(Kept {
            starts,
            router_notes,
            memory_notes,
            of: PhantomData,
        })
    }

    /// Hands out what the initiator with this number starts with: the engine with its whole script, a
    /// new payload with room for 4,096 bytes, a note that has seen nothing, and a wallet with its
    /// tickets of each object.
    pub fn start(&mut self, initiator: u32) -> Start
        requires { slice_get self.old.starts initiator ≡ Some true }
        ensures start { IsStart N.table N.tokens N.frame.world initiator result }
        ensures kept { self.new ≡ record self.old { starts = slice_set self.old.starts initiator false } }
    {
        let place = &mut self.starts[initiator as usize];
        let Some(start) = place.take() else {
            unreachable!()
        };
        start
    }

    /// Hands out the note of the router with this number.
    pub fn router_note(&mut self, router: u32) -> PlatNote
        requires { slice_get self.old.routers router ≡ Some true }
        ensures note { IsBlank N.table result }
        ensures kept { self.new ≡ record self.old { routers = slice_set self.old.routers router false } }
    {
        take_note(&mut self.router_notes[router as usize])
    }

    /// Hands out the note of the memory with this number.
    pub fn memory_note(&mut self, memory: u32) -> PlatNote
        requires { slice_get self.old.memories memory ≡ Some true }
        ensures note { IsBlank N.table result }
        ensures kept { self.new ≡ record self.old { memories = slice_set self.old.memories memory false } }
    {
        take_note(&mut self.memory_notes[memory as usize])
    }

    /// The wallets of all initiators, in order, where nothing was handed out.
    pub(crate) fn into_wallets(self, alloc: Global) -> Result<Vec<Wallet>, AllocError>
        requires { self ≡ all_waiting N.frame.world.platform }
        ensures { IfOk result (λ wallets. HaveTicketsFrom N.tokens N.frame.world 0 wallets.items) }
    {
        let Kept {
            starts,
            router_notes: _,
            memory_notes: _,
            of: _,
        } = self;
        wallets_of::<N>(alloc, starts)
    }
}

/// The style of the initiator with this number, which tells how it is to begin.
pub fn style_of<N: Naming<Plan, TlmLaw>, S: Sharing<N>>(net: &Net<N, S>, number: u32) -> Style
    requires { number < length net.now.platform.initiators }
    ensures { IsSomeAnd (slice_get net.now.platform.initiators number) (λ row. row.style ≡ result) }
{
    let rows = net.plan().platform().initiators.as_slice();
    rows[number as usize].style
}

// The wallets of what waits for all initiators.
fn wallets_of<N: Naming<Plan, TlmLaw>>(
    alloc: Global,
    starts: Vec<Option<Start>>,
) -> Result<Vec<Wallet>, AllocError>
    requires starts { AreStarts N.table N.tokens N.frame.world starts.items }
    requires all { map (λ start. is_some start) starts.items ≡ replicate (length N.frame.world.platform.initiators) true }
    ensures { IfOk result (λ wallets. HaveTicketsFrom N.tokens N.frame.world 0 wallets.items) }
{
    let mut wallets = Vec::new(alloc);
    for place in starts {
        let Some(start) = place else { unreachable!() };
        wallets.push(start.wallet)?;
    }
    Ok(wallets)
}

// Takes a note that is there.
fn take_note(place: &mut Option<PlatNote>) -> PlatNote
    requires { IsSome place.old }
    ensures note { place.old ≡ Some result }
    ensures gone { place.new ≡ None }
{
    let Some(note) = place.take() else {
        unreachable!()
    };
    note
}

// So many notes, off the end.
fn take_notes<N: Naming<Plan, TlmLaw>>(
    alloc: Global,
    notes: &mut Vec<PlatNote>,
    count: usize,
) -> Result<Vec<Option<PlatNote>>, AllocError>
    requires enough { count ≤ length notes.old.items }
    requires blank { All (IsBlank N.table) notes.old.items }
    ensures blank { IfOk result (λ taken. AreBlank N.table taken.items) }
    ensures all { IfOk result (λ taken. map (λ note. is_some note) taken.items ≡ replicate count true) }
    ensures left { OnOk result (All (IsBlank N.table) notes.new.items) }
    ensures fewer { OnOk result (length notes.new.items + count ≡ length notes.old.items) }
{
    let mut taken = Vec::new(alloc);
    for _place in 0..count {
        let Some(note) = notes.pop() else {
            unreachable!()
        };
        taken.push(Some(note))?;
    }
    Ok(taken)
}

// What the initiator with this number starts with.
fn make_start<N: Naming<Plan, TlmLaw>>(
    alloc: Global,
    plan: &Plan,
    initiator: u32,
    note: PlatNote,
    wallet: Wallet,
) -> Result<Start, Memory>
    requires initiator { initiator < length plan.now.platform.initiators }
    requires note { IsBlank N.table note }
    requires wallet { IsStocked N.tokens plan.now (length (objects_of plan.now.platform)) initiator wallet }
    ensures { IfOk result (IsStart N.table N.tokens plan.now initiator) }
{
    let script = plan.script(initiator).copy(alloc)?;
    let payload = Payload::with_room(alloc, 4096)?;
    Ok(Start {
        engine: Engine::new(initiator, script),
        payload,
        note,
        wallet,
    })
}

// What each initiator starts with.
fn make_starts<N: Naming<Plan, TlmLaw>>(
    alloc: Global,
    plan: &Plan,
    mut notes: Vec<PlatNote>,
    wallets: Vec<Wallet>,
) -> Result<Vec<Option<Start>>, Memory>
    requires notes { All (IsBlank N.table) notes.items }
    requires enough { length plan.now.platform.initiators ≤ length notes.items }
    requires wallets { AreStocked N.tokens plan.now (length (objects_of plan.now.platform)) wallets.items }
    ensures starts { IfOk result (λ starts. AreStarts N.table N.tokens plan.now starts.items) }
    ensures all { IfOk result (λ starts. map (λ start. is_some start) starts.items ≡ replicate (length plan.now.platform.initiators) true) }
{
    let _ = plan.platform();
    let mut starts = Vec::new(alloc);
    for wallet in wallets {
        let Some(note) = notes.pop() else {
            unreachable!()
        };
        let initiator = starts.len() as u32;
        let start = make_start::<N>(alloc, plan, initiator, note, wallet)?;
        starts.push(Some(start))?;
    }
    Ok(starts)
}
