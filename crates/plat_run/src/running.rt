// The run of a net.
ghost use Rattle.std.specs.Prelude.{◌≡◌, ◌≤◌, true, length, All, IfOk, count_by};
ghost use Rattle.run_queue.specs.Queue.{AreNumbered};
ghost use Rattle.cargo_model.specs.Known.{objects_of};
ghost use Rattle.plat_build.specs.Kept.{all_waiting};
ghost use Rattle.plat_net.specs.Objects.{frame_of};
ghost use Rattle.run_outcome.specs.Outcome.{IsWhole};
ghost use Rattle.plat_run.specs.Actors.{is_done, number_of};
ghost use Rattle.plat_run.specs.Begun.{HasBegun};
ghost use Rattle.plat_end.specs.End.{AreFinished};
ghost use Rattle.plat_end.specs.Entries.{entries_read};
ghost use Rattle.plat_end.specs.Room.{HasRoom};
ghost use Rattle.plat_end.specs.Run.{IsCoreRun};

use crate::actor::Actor;
use crate::begin::begin_jobs;
use crate::ending::{HandedIn, hand_in};
use crate::logs::{Logs, forget_unless_kept, until_in_store};
use crate::workers::{work_all, work_alone};
use outside::Pace;
use plat_build::{Built, Kept, Opened, build};
use plat_end::{Apart, PlatSealed, seal, take_apart};
use plat_net::{ManyThreads, Net, NetParts, OneThread, Sharing, TlmLaw};
use route_plan::Plan;
use run_outcome::Outcome;
use run_queue::{Job, RunQueue};
use shared_object::Naming;
use std::alloc::Global;
use std::marker::Brand;
use std::sync::Wait;
use std::thread::Threads;
use time_board::Board;
use tlm_types::Memory;

/// A run before its first turn: its jobs, of which the first so many are those of initiators, the board of their rounds, and room for what these leave.
#[derive(Drop)]
pub(crate) struct Begun<N: Naming<Plan, TlmLaw>> {
    jobs: Vec<Actor<N>>,
    count: u32,
    board: Board,
    handed: HandedIn,
}

/// Runs the initiators of a net that was just built by so many workers, 1 to 16, until all have finished. Once the workers have left, the caller goes
/// on alone, and takes no lock for a call at an object any more. Each access and each debug read is told to the pace before it is made, while no lock is
/// held. The history is good for the plan whatever the workers do in which order, and it is sealed. Its only error is want of memory, before the first worker starts.
pub fn run<N: Naming<Plan, TlmLaw> + Send + Sync, P: Pace + Sync, R: Threads + Wait + Sync>(
    rt: &R,
    alloc: Global,
    built: Built<N, ManyThreads>,
    workers: u32,
    pace: &P,
    logs: Logs,
) -> Result<(Outcome, PlatSealed), Memory>
    requires frame { N.frame ≡ frame_of built.net }
    requires kept { built.kept ≡ all_waiting built.net.platform }
    ensures whole { IfOk result (λ r. IsWhole built.net r.0) }
    ensures core { IfOk result (λ r. IsCoreRun built.net r.0.history.entries) }
    ensures sealed { IfOk result (λ r. entries_read built.net.platform r.1.entries ≡ r.0.history.entries) }
    ensures world { IfOk result (λ r. (r.1.table ≡ N.table) × (r.1.world ≡ built.net)) }
    ensures whole_log { logs ≡ Logs.Kept → IfOk result (λ r. r.0.history.whole ≡ true) }
{
    let Built { net, mut kept } = built;
    let apart = Apart::room_for(alloc, &net)?;
    let room = net.room_for::<OneThread>(alloc)?;
    forget_unless_kept(rt, &net, logs);
    let begun = begin_run(rt, alloc, &net, &mut kept)?;
    let begun = share_turns(rt, alloc, &net, begun, pace, workers)?;
    Ok(finish_run(rt, net.kept_by(room), begun, apart, pace, logs))
}

/// Runs the initiators of a net that was just built for one thread, which is the caller's, as `run` does by one worker.
/// No lock is taken for a call at an object. Its only error is want of memory, before the first turn.
pub fn run_alone<N: Naming<Plan, TlmLaw>, S: Sharing<N>, P: Pace, R: Wait>(
    rt: &R,
    alloc: Global,
    built: Built<N, S>,
    pace: &P,
    logs: Logs,
) -> Result<(Outcome, PlatSealed), Memory>
    requires frame { N.frame ≡ frame_of built.net }
    requires kept { built.kept ≡ all_waiting built.net.platform }
    ensures whole { IfOk result (λ r. IsWhole built.net r.0) }
    ensures core { IfOk result (λ r. IsCoreRun built.net r.0.history.entries) }
    ensures sealed { IfOk result (λ r. entries_read built.net.platform r.1.entries ≡ r.0.history.entries) }
    ensures world { IfOk result (λ r. (r.1.table ≡ N.table) × (r.1.world ≡ built.net)) }
    ensures whole_log { logs ≡ Logs.Kept → IfOk result (λ r. r.0.history.whole ≡ true) }
{
    let Built { net, mut kept } = built;
    let apart = Apart::room_for(alloc, &net)?;
    forget_unless_kept(rt, &net, logs);
    let begun = begin_run(rt, alloc, &net, &mut kept)?;
    Ok(finish_run(rt, net, begun, apart, pace, logs))
}

// The jobs of a net that was just built, with their board and with room for what they leave. Its only error is want of memory.
fn begin_run<N: Naming<Plan, TlmLaw>, S: Sharing<N>, R: Wait>(
    rt: &R,
    alloc: Global,
    net: &Net<N, S>,
    kept: &mut Kept<N>,
) -> Result<Begun<N>, Memory>
    requires kept { kept.old ≡ all_waiting net.now.platform }
    ensures { IfOk result (HasBegun (length N.frame.world.platform.initiators)) }
{
    let jobs = begin_jobs(alloc, net, kept)?;
    let count = net.plan().platform().initiators.as_slice().len() as u32;
    let handed = HandedIn::with_room(alloc, count)?;
    let board = begin_board(rt, alloc, &jobs, count)?;
    Ok(Begun {
        jobs,
        count,
        board,
        handed,
    })
}

// Gives turns by the caller alone until all initiators have finished, takes the net apart, and makes the outcome of it. It takes no memory.
fn finish_run<N: Naming<Plan, TlmLaw>, S: Sharing<N>, P: Pace, R: Wait>(
    rt: &R,
    mut net: Net<N, S>,
    begun: Begun<N>,
    apart: Apart,
    pace: &P,
    logs: Logs,
) -> (Outcome, PlatSealed)
    requires begun { HasBegun (length N.frame.world.platform.initiators) begun }
    requires apart { HasRoom (length (objects_of N.frame.world.platform)) (length N.frame.world.platform.memories) apart }
    ensures whole { IsWhole N.frame.world result.0 }
    ensures core { IsCoreRun N.frame.world result.0.history.entries }
    ensures sealed { entries_read N.frame.world.platform result.1.entries ≡ result.0.history.entries }
    ensures world { (result.1.table ≡ N.table) × (result.1.world ≡ N.frame.world) }
    ensures whole_log { logs ≡ Logs.Kept → result.0.history.whole ≡ true }
{
    let Begun {
        jobs,
        count,
        board,
        handed,
    } = begun;
    let jobs = give_all_turns(rt, &mut net, &board, pace, jobs, count);
    let handed = hand_in(dismiss_nodes(jobs, count), handed);
    let (outcome, sealed) = end_run(rt, net, handed, apart);
    until_in_store(rt, &outcome.history, logs);
    (outcome, sealed)
}

// Takes the net apart whose initiators have left this, and makes the outcome of it. There is room for what its objects leave, so it takes no memory.
fn end_run<N: Naming<Plan, TlmLaw>, S: Sharing<N>, R: Wait>(
    rt: &R,
    net: Net<N, S>,
    handed: HandedIn,
    apart: Apart,
) -> (Outcome, PlatSealed)
    requires finished { AreFinished N.table N.tokens N.frame.world (length N.frame.world.platform.initiators) handed.ends.items handed.wallets.items handed.notes.items }
    requires apart { HasRoom (length (objects_of N.frame.world.platform)) (length N.frame.world.platform.memories) apart }
    ensures whole { IsWhole N.frame.world result.0 }
    ensures core { IsCoreRun N.frame.world result.0.history.entries }
    ensures sealed { entries_read N.frame.world.platform result.1.entries ≡ result.0.history.entries }
    ensures world { (result.1.table ≡ N.table) × (result.1.world ≡ N.frame.world) }
{
    let _ = net.plan().platform();
    let HandedIn {
        ends,
        mut wallets,
        notes,
    } = handed;
    let NetParts {
        history,
        tickets,
        memories,
        hops,
        pools,
    } = net.into_parts();
    let apart = take_apart::<N, S, R>(rt, &tickets, memories, hops, pools, &mut wallets, apart);
    seal::<N>(history, ends, notes, apart)
}

// A board on which the blocking and direct initiators of these jobs take part in rounds. Its only error is want of memory.
fn begin_board<N: Naming<Plan, TlmLaw>, R: Wait>(
    rt: &R,
    alloc: Global,
    jobs: &[Actor<N>],
    count: u32,
) -> Result<Board, Memory> {
    let board = Board::new(alloc, count)?;
    for job in jobs {
        if job.is_pumped() {
            board.finish(rt, job.number());
        }
    }
    Ok(board)
}

// Gives turns by the caller alone to these jobs until the first so many have finished.
// It stays a function of its own: as a part of a greater one a turn takes more instructions.
#[inline(never)]
fn give_all_turns<N: Naming<Plan, TlmLaw>, S: Sharing<N>, P: Pace, R: Wait>(
    rt: &R,
    net: &mut Net<N, S>,
    board: &Board,
    pace: &P,
    mut jobs: Vec<Actor<N>>,
    count: u32,
) -> Vec<Actor<N>>
    requires many { count ≤ length jobs.items }
    requires numbered { AreNumbered number_of jobs.items }
    ensures numbered { AreNumbered number_of result.items }
    ensures count { length result.items ≡ length jobs.items }
    ensures enough { count ≤ count_by is_done result.items }
{
    work_alone(rt, net, board, pace, &mut jobs, count);
    jobs
}

// Gives turns to the jobs by so many workers until these have left, if there are more than one. Its only error is want of memory, before the first turn.
#[inline(never)]
fn share_turns<N: Naming<Plan, TlmLaw> + Send + Sync, P: Pace + Sync, R: Threads + Wait + Sync>(
    rt: &R,
    alloc: Global,
    net: &Net<N, ManyThreads>,
    begun: Begun<N>,
    pace: &P,
    workers: u32,
) -> Result<Begun<N>, Memory>
    requires { HasBegun (length N.frame.world.platform.initiators) begun }
    ensures { IfOk result (HasBegun (length N.frame.world.platform.initiators)) }
{
    // More workers than jobs would find nothing to do.
    let workers = begun.jobs.len().min(workers as usize);
    if workers <= 1 {
        return Ok(begun);
    }
    let Begun {
        jobs,
        count,
        board,
        handed,
    } = begun;
    let queue = RunQueue::new(alloc, jobs, count)?;
    work_all(rt, net, &board, &queue, workers as u32, pace);
    Ok(Begun {
        jobs: queue.into_all(rt),
        count,
        board,
        handed,
    })
}

// Lets go of the routers and memories, which come after the initiators, where as many jobs are done as there are
// initiators: so these are all done.
fn dismiss_nodes<N: Naming<Plan, TlmLaw>>(mut jobs: Vec<Actor<N>>, count: u32) -> Vec<Actor<N>>
    requires initiators { count ≡ length N.frame.world.platform.initiators }
    requires many { count ≤ length jobs.items }
    requires numbered { AreNumbered number_of jobs.items }
    requires enough { count ≤ count_by is_done jobs.items }
    ensures numbered { AreNumbered number_of result.items }
    ensures count { length result.items ≡ count }
    ensures done { All (λ job. is_done job ≡ true) result.items }
{
    'nodes: while jobs.len() > count as usize {
        let Some(job) = jobs.pop() else {
            unreachable!()
        };
        job.let_go();
    }
    jobs
}

/// Builds the net of a plan, and runs it. Its only error is want of memory, before the first worker starts.
pub fn run_plan<P: Pace + Sync, R: Threads + Wait + Sync>(
    rt: &R,
    alloc: Global,
    plan: &Plan,
    workers: u32,
    pace: &P,
    logs: Logs,
) -> Result<(Outcome, PlatSealed), Memory>
    ensures whole { IfOk result (λ r. IsWhole plan.now r.0) }
    ensures core { IfOk result (λ r. IsCoreRun plan.now r.0.history.entries) }
    ensures sealed { IfOk result (λ r. entries_read plan.now.platform r.1.entries ≡ r.0.history.entries) }
    ensures world { IfOk result (λ r. r.1.world ≡ plan.now) }
    ensures whole_log { logs ≡ Logs.Kept → IfOk result (λ r. r.0.history.whole ≡ true) }
{
    let opened = Opened::new(alloc, plan)?;
    if workers <= 1 {
        return run_opened_alone::<Brand, P, R>(rt, alloc, plan, opened, pace, logs);
    }
    run_opened::<Brand, P, R>(rt, alloc, plan, opened, workers, pace, logs)
}

// The same of a history that has been opened. The call picks N.
fn run_opened<N: Naming<Plan, TlmLaw> + Send + Sync, P: Pace + Sync, R: Threads + Wait + Sync>(
    rt: &R,
    alloc: Global,
    plan: &Plan,
    opened: Opened,
    workers: u32,
    pace: &P,
    logs: Logs,
) -> Result<(Outcome, PlatSealed), Memory>
    requires history { (opened.table ≡ N.table) × (opened.frame ≡ N.frame) }
    requires tickets { opened.tokens ≡ N.tokens }
    requires frame { N.frame ≡ frame_of plan.now }
    ensures whole { IfOk result (λ r. IsWhole plan.now r.0) }
    ensures core { IfOk result (λ r. IsCoreRun plan.now r.0.history.entries) }
    ensures sealed { IfOk result (λ r. entries_read plan.now.platform r.1.entries ≡ r.0.history.entries) }
    ensures world { IfOk result (λ r. r.1.world ≡ plan.now) }
    ensures whole_log { logs ≡ Logs.Kept → IfOk result (λ r. r.0.history.whole ≡ true) }
{
    let built = build::<N, ManyThreads>(alloc, opened, plan)?;
    run::<N, P, R>(rt, alloc, built, workers, pace, logs)
}

// The same by the caller alone.
fn run_opened_alone<N: Naming<Plan, TlmLaw>, P: Pace, R: Wait>(
    rt: &R,
    alloc: Global,
    plan: &Plan,
    opened: Opened,
    pace: &P,
    logs: Logs,
) -> Result<(Outcome, PlatSealed), Memory>
    requires history { (opened.table ≡ N.table) × (opened.frame ≡ N.frame) }
    requires tickets { opened.tokens ≡ N.tokens }
    requires frame { N.frame ≡ frame_of plan.now }
    ensures whole { IfOk result (λ r. IsWhole plan.now r.0) }
    ensures core { IfOk result (λ r. IsCoreRun plan.now r.0.history.entries) }
    ensures sealed { IfOk result (λ r. entries_read plan.now.platform r.1.entries ≡ r.0.history.entries) }
    ensures world { IfOk result (λ r. r.1.world ≡ plan.now) }
    ensures whole_log { logs ≡ Logs.Kept → IfOk result (λ r. r.0.history.whole ≡ true) }
{
    let built = build::<N, OneThread>(alloc, opened, plan)?;
    run_alone::<N, OneThread, P, R>(rt, alloc, built, pace, logs)
}
