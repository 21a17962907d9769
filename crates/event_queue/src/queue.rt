// The queue.
ghost use Rattle.std.specs.Prelude.{◌≡◌, ◌+◌, ◌<◌, ◌≤◌, ◌^◌, ◌↔◌, ◌++◌, [], ◌∷◌, true, false, Some, length, All, IsNone, IfNone, IfSome, IfOk, IsTrue};
ghost use Rattle.std.specs.List.{AllByRecursion};
ghost use Rattle.std.specs.BinaryHeap.{heap_capacity, heap_items, heap_len};
ghost use Rattle.event_queue.specs.EventQueue.{notified, first_time};
ghost use Rattle.event_queue.specs.Kept.{AreWaiting};
ghost use Rattle.event_queue.specs.Line.{AreSplit, joined, last_time};
ghost use Rattle.event_queue.specs.Waiting.{given_in_order};

use crate::waiting::Waiting;
use std::alloc::Global;
use std::collections::{BinaryHeap, VecDeque};
use std::marker::Model;
use std::mem;
use tlm_types::Memory;

/// Items that wait for their times, as in the standard's `peq_with_get` (clause 16.3). Times are
/// absolute, in picoseconds.
#[derive(Drop)]
pub struct EventQueue<T> {
    /// In the order of their times: each was notified when none of these was later.
    line: VecDeque<(u64, T)>,
    /// Those that were notified when the last of the line was later. Mostly there is none.
    early: BinaryHeap<Waiting<T>>,
    /// Empty, with the same room: what is early moves there when it is numbered anew.
    spare: BinaryHeap<Waiting<T>>,
    /// The number of the next notification of one that is early.
    next: u64,
    room: u32,
}

impl<T> Model for EventQueue<T> {
    ghost use Rattle.std.specs.Prelude.{◌≡◌, ◌+◌, ◌≤◌, ◌<◌, ◌^◌};
    ghost use Rattle.std.specs.BinaryHeap.{heap_capacity, heap_items, heap_len};
    ghost use Rattle.std.specs.VecDeque.{deque_capacity, deque_len};
    ghost use Rattle.event_queue.specs.EventQueue.{Events};
    ghost use Rattle.event_queue.specs.Kept.{AreWaiting};
    ghost use Rattle.event_queue.specs.Line.{AreSplit, joined};
    ghost use Rattle.event_queue.specs.Waiting.{given_in_order};

    ghost Value = { Events T };

    ghost view = { λ q. record { entries = joined q.line.items (given_in_order (heap_items q.early)); room = q.room } };

    ghost invariant = { λ q. AreWaiting q.next (heap_items q.early) × AreWaiting 0 (heap_items q.spare)
        × AreSplit q.line.items (given_in_order (heap_items q.early)) × (deque_len q.line + heap_len q.early ≤ q.room)
        × (q.room ≤ heap_capacity q.early) × (q.room ≤ heap_capacity q.spare) × (q.room ≤ deque_capacity q.line)
        × (heap_len q.spare ≡ 0) × (q.room < 2 ^ 32) × (q.next < 2 ^ 64) };
}

// Moves what waits to an empty heap with room for it, and numbers it from 0 on in the order in which it is
// given.
fn number_anew<T>(from: &mut BinaryHeap<Waiting<T>>, to: &mut BinaryHeap<Waiting<T>>, next: u64)
    requires waiting { AreWaiting next (heap_items from.old) }
    requires empty { AreWaiting 0 (heap_items to.old) × (heap_len to.old ≡ 0) }
    requires room { heap_len from.old ≤ heap_capacity to.old }
    requires few { heap_len from.old < 2 ^ 32 }
    ensures same { given_in_order (heap_items to.new) ≡ given_in_order (heap_items from.old) }
    ensures waiting { AreWaiting (heap_len from.old) (heap_items to.new) }
    ensures empty { AreWaiting 0 (heap_items from.new) × (heap_len from.new ≡ 0) }
    ensures count { heap_len to.new ≡ heap_len from.old }
    ensures room { (heap_capacity from.new ≡ heap_capacity from.old) × (heap_capacity to.old ≤ heap_capacity to.new) }
{
    let _ = next;
    for order in 0..from.len() {
        let Some(first) = from.pop() else {
            unreachable!()
        };
        let Waiting { at, order: _, item } = first;
        let order = order as u64;
        to.push(Waiting { at, order, item }).unwrap();
    }
}

// The number of the next that is early. Where the last number was taken, those that are early are numbered
// anew.
fn take_number<T>(
    early: &mut BinaryHeap<Waiting<T>>,
    spare: &mut BinaryHeap<Waiting<T>>,
    next: u64,
    room: u32,
) -> u64
    requires waiting { AreWaiting next (heap_items early.old) }
    requires spare { AreWaiting 0 (heap_items spare.old) × (heap_len spare.old ≡ 0) }
    requires room { (heap_len early.old ≤ room) × (room ≤ heap_capacity early.old) × (room ≤ heap_capacity spare.old) }
    ensures same { given_in_order (heap_items early.new) ≡ given_in_order (heap_items early.old) }
    ensures waiting { AreWaiting result (heap_items early.new) }
    ensures spare { AreWaiting 0 (heap_items spare.new) × (heap_len spare.new ≡ 0) }
    ensures count { heap_len early.new ≡ heap_len early.old }
    ensures room { (room ≤ heap_capacity early.new) × (room ≤ heap_capacity spare.new) }
    ensures more { result + 1 < 2 ^ 64 }
{
    if next < u64::MAX {
        return next;
    }
    let count = early.len() as u64;
    number_anew(early, spare, next);
    mem::swap(early, spare);
    count
}

// The time of the first of those that are early, where the numbers are below this one.
fn early_at<T>(early: &BinaryHeap<Waiting<T>>, next: u64) -> Option<u64>
    requires { AreWaiting next (heap_items early.now) }
    ensures first { result ≡ first_time (given_in_order (heap_items early.now)) }
    ensures least { IfSome result (λ time. All (λ e. time ≤ e.0) (given_in_order (heap_items early.now))) }
    ensures empty { IsNone result ↔ (given_in_order (heap_items early.now) ≡ []) }
{
    let _ = next;
    match early.peek() {
        Some(first) => Some(first.at),
        None => None,
    }
}

// The time of the first of a line.
fn line_at<T>(line: &VecDeque<(u64, T)>) -> Option<u64>
    ensures { result ≡ first_time line.now.items }
{
    match line.front() {
        Some(first) => Some(first.0),
        None => None,
    }
}

// Whether none of a line is later than this time.
fn is_last<T>(line: &VecDeque<(u64, T)>, at: u64) -> bool
    ensures { IsTrue result ↔ last_time line.now.items ≤ at }
{
    match line.back() {
        Some(last) => last.0 <= at,
        None => true,
    }
}

// The time of the first of all, and whether it is early.
fn first_of<T>(
    line: &VecDeque<(u64, T)>,
    early: &BinaryHeap<Waiting<T>>,
    next: u64,
) -> Option<(u64, bool)>
    requires waiting { AreWaiting next (heap_items early.now) }
    requires split { AreSplit line.now.items (given_in_order (heap_items early.now)) }
    ensures first { IfSome result (λ f. Some f.0 ≡ first_time (joined line.now.items (given_in_order (heap_items early.now)))) }
    ensures least { IfSome result (λ f. All (λ e. f.0 ≤ e.0) (joined line.now.items (given_in_order (heap_items early.now)))) }
    ensures early { IfSome result (λ f. f.1 ≡ true → AllByRecursion (λ e. f.0 < e.0) line.now.items × (Some f.0 ≡ first_time (given_in_order (heap_items early.now)))) }
    ensures late { IfSome result (λ f. f.1 ≡ false → AllByRecursion (λ e. f.0 ≤ e.0) (given_in_order (heap_items early.now)) × (Some f.0 ≡ first_time line.now.items)) }
    ensures empty { IsNone result ↔ (joined line.now.items (given_in_order (heap_items early.now)) ≡ []) }
{
    let late = line_at(line)?;
    match early_at(early, next) {
        Some(at) if at < late => Some((at, true)),
        _ => Some((late, false)),
    }
}

impl<T> EventQueue<T> {
    /// An empty queue with room for so many entries. Its only error is want of memory.
    pub fn new(alloc: Global, room: u32) -> Result<EventQueue<T>, Memory>
        ensures { IfOk result (λ q. q ≡ record { entries = []; room = room }) }
    {
        let line = VecDeque::with_capacity(alloc, room as usize)?;
        let Ok(early) = BinaryHeap::with_capacity(alloc, room as usize) else {
            line.destroy_empty();
            return Err(Memory);
        };
        let Ok(spare) = BinaryHeap::with_capacity(alloc, room as usize) else {
            line.destroy_empty();
            early.destroy_empty();
            return Err(Memory);
        };
        Ok(EventQueue {
            line,
            early,
            spare,
            next: 0,
            room,
        })
    }

    /// Adds an item that is to be given at this time, in picoseconds. It stands behind all entries whose
    /// time is at most its own. The room for it is there.
    pub fn notify(&mut self, item: T, at: u64)
        requires { length self.old.entries < self.old.room }
        ensures { self.new ≡ record self.old { entries = notified self.old.entries item at } }
    {
        if is_last(&self.line, at) {
            self.line.push_back_reserved((at, item));
            return;
        }
        let order = take_number(&mut self.early, &mut self.spare, self.next, self.room);
        self.next = order + 1;
        self.early.push(Waiting { at, order, item }).unwrap();
    }

    /// Gives the first entry whose time is at most `now`, in picoseconds, with its time.
    pub fn pop(&mut self, now: u64) -> Option<(u64, T)>
        // Nothing is given exactly where no entry's time has come.
        ensures none { IsNone result ↔ All (λ e. now < e.0) self.old.entries }
        ensures unchanged { IfNone result (self.new ≡ self.old) }

        // What is given has the least time, and is the first of those that have it.
        ensures due { IfSome result (λ given. given.0 ≤ now) }
        ensures least { IfSome result (λ given. All (λ e. given.0 ≤ e.0) self.old.entries) }
        ensures first { IfSome result (λ given. self.old.entries ≡ given ∷ self.new.entries) }
        ensures room { self.new.room ≡ self.old.room }
    {
        let (first, is_early) = first_of(&self.line, &self.early, self.next)?;
        if now < first {
            return None;
        }
        if is_early {
            let given = self.early.pop()?;
            let Waiting { at, order: _, item } = given;
            return Some((at, item));
        }
        let (at, item) = self.line.pop_front()?;
        Some((at, item))
    }

    /// The time of the first entry, in picoseconds, and nothing exactly where there is none.
    pub fn next_time(&self) -> Option<u64>
        ensures first { result ≡ first_time self.now.entries }
        ensures least { IfSome result (λ time. All (λ e. time ≤ e.0) self.now.entries) }
        ensures empty { IsNone result ↔ (self.now.entries ≡ []) }
    {
        let (first, _) = first_of(&self.line, &self.early, self.next)?;
        Some(first)
    }

    /// How many entries wait.
    pub fn len(&self) -> u32
        ensures count { result ≡ length self.now.entries }
        ensures within { result ≤ self.now.room }
    {
        (self.line.len() + self.early.len()) as u32
    }

    pub fn is_empty(&self) -> bool
        ensures { IsTrue result ↔ (self.now.entries ≡ []) }
    {
        self.line.is_empty()
    }

    /// How many entries may wait at a time.
    pub fn room(&self) -> u32
        ensures { result ≡ self.now.room }
    {
        self.room
    }
}
