// The lanes of a hop.
ghost use Rattle.std.specs.Prelude.{◌≡◌, ◌+◌, ◌<◌, ◌≤◌, [], ◌∷◌, ◌++◌, true, false, None, Some, find, length, position, slice_index_or, take, vec_len};
ghost use Rattle.std.specs.Vec.{vec_capacity};
ghost use Rattle.std.specs.List.{All, HoldsAt, list_all, list_any};
ghost use Rattle.hop_object.specs.Lanes.{any_requested, any_responding, has_leg, is_ended, legs_out, requester, responder, waits, ChangedAt, FindsFirst, HasPosition, NotAfter, RemovedAt};

use crate::answer::{down, number_of, requested, responding};
use base_phases::LaneState;
use std::mem;
use tlm_types::{Ps, TxnId};
use view_lists::take_from;

/// Which end of a hop waits for an item: the component downstream or the one upstream.
#[derive(Clone, Copy)]
pub enum Side {
    Down,
    Up,
}

/// A transaction that a hop holds: since its BEGIN_REQ at `position` it has come to `state`, by the
/// entry at `latest`, at the time `last`. It carries an item while that waits to be fetched; else its
/// leg is out.
#[derive(Drop)]
pub struct Lane<T> {
    pub txn: TxnId,
    pub position: u64,
    pub state: LaneState,
    pub last: Ps,
    pub latest: u64,
    pub item: Option<T>,
}

impl<T> Lane<T> {
    fn has_leg(&self, name: u32) -> bool
        requires { HasPosition self.now }
        ensures { result ≡ has_leg name self.now }
    {
        self.item.is_none() && 4 * self.position as u32 + number_of(self.state) == name
    }

    fn waits(&self, side: Side) -> bool
        ensures { result ≡ waits side self.now }
    {
        match side {
            Side::Down => self.item.is_some() && down(self.state),
            Side::Up => self.item.is_some() && !down(self.state),
        }
    }

    fn is_ended(&self, txn: TxnId) -> bool
        ensures { result ≡ is_ended txn self.now }
    {
        !(self.txn.initiator == txn.initiator && self.txn.seq == txn.seq)
            || matches!(self.state, LaneState::Free)
    }

    // Whether the lane comes before the best so far.
    fn is_sooner(&self, best: &Lane<T>) -> bool
        ensures no { result ≡ false → NotAfter best.now self.now }
        ensures yes { result ≡ true → NotAfter self.now best.now }
    {
        self.last < best.last || self.last == best.last && self.latest < best.latest
    }
}

// The first of the lanes up to the one at this place.
fn first_of<T>(lanes: &[Lane<T>], side: Side, best: Option<usize>, place: usize) -> Option<usize>
    requires place { place < length lanes.now }
    requires best { FindsFirst side (take place lanes.now) best }
    ensures { FindsFirst side (take (place + 1) lanes.now) result }
{
    let lane = &lanes[place];
    if !lane.waits(side) {
        return best;
    }
    match best {
        None => Some(place),
        Some(old) => {
            if lane.is_sooner(&lanes[old]) {
                Some(place)
            } else {
                Some(old)
            }
        }
    }
}

// The place of the lane whose item is to be fetched first.
pub(crate) fn first_waiting<T>(lanes: &[Lane<T>], side: Side) -> Option<usize>
    ensures { FindsFirst side lanes.now result }
{
    let mut best = None;
    for place in 0..lanes.len() {
        best = first_of(lanes, side, best, place);
    }
    best
}

pub(crate) fn any_requested<T>(lanes: &[Lane<T>]) -> bool
    ensures { result ≡ any_requested lanes.now }
{
    lanes.iter().any(|lane| requested(lane.state))
}

pub(crate) fn any_responding<T>(lanes: &[Lane<T>]) -> bool
    ensures { result ≡ any_responding lanes.now }
{
    lanes.iter().any(|lane| responding(lane.state))
}

pub(crate) fn requester<T>(lanes: &[Lane<T>]) -> Option<TxnId>
    ensures { result ≡ requester lanes.now }
{
    lanes
        .iter()
        .find(|lane| requested(lane.state))
        .map(|lane| lane.txn)
}

pub(crate) fn responder<T>(lanes: &[Lane<T>]) -> Option<TxnId>
    ensures { result ≡ responder lanes.now }
{
    lanes
        .iter()
        .find(|lane| responding(lane.state))
        .map(|lane| lane.txn)
}

pub(crate) fn all_ended<T>(lanes: &[Lane<T>], txn: TxnId) -> bool
    ensures { result ≡ list_all (is_ended txn) lanes.now }
{
    lanes.iter().all(|lane| lane.is_ended(txn))
}

#[inline(always)]
pub(crate) fn any_leg<T>(lanes: &[Lane<T>], name: u32) -> bool
    requires { All HasPosition lanes.now }
    ensures { result ≡ list_any (has_leg name) lanes.now }
{
    lanes.iter().any(|lane| lane.has_leg(name))
}

// The place of the lane whose leg has this name. Nothing asks for the end of the list.
#[inline(always)]
pub(crate) fn lane_of<T>(lanes: &[Lane<T>], name: u32) -> usize
    requires placed { All HasPosition lanes.now }
    requires out { 1 ≤ legs_out name lanes.now }
    ensures place { result < length lanes.now }
    ensures leg { HoldsAt (λ l. has_leg name l ≡ true) lanes.now result }
    ensures found { (l : _) → l ≡ slice_index_or lanes.now result l → find (has_leg name) lanes.now ≡ Some l }
{
    let mut place = 0;
    while !lanes[place].has_leg(name) {
        place += 1;
    }
    place
}

// Moves a lane on, and hands out what it carried.
#[inline(always)]
pub(crate) fn change<T>(
    lanes: &mut Vec<Lane<T>>,
    index: usize,
    state: LaneState,
    last: Ps,
    latest: u64,
    item: Option<T>,
) -> Option<T>
    requires { index < length lanes.old.items }
    ensures lanes { ChangedAt lanes.old.items lanes.new.items index result state last latest item }
    ensures capacity { vec_capacity lanes.new ≡ vec_capacity lanes.old }
{
    let lane = &mut lanes[index];
    lane.state = state;
    lane.last = last;
    lane.latest = latest;
    mem::replace(&mut lane.item, item)
}

// Ends a lane, and hands out what it carried.
#[inline(always)]
pub(crate) fn take_out<T>(lanes: &mut Vec<Lane<T>>, index: usize) -> Option<T>
    requires { index < length lanes.old.items }
    ensures lanes { RemovedAt lanes.old.items lanes.new.items index result }
    ensures capacity { vec_capacity lanes.new ≡ vec_capacity lanes.old }
{
    let Lane {
        txn: _,
        position: _,
        state: _,
        last: _,
        latest: _,
        item,
    } = take_from(lanes, index);
    item
}

// Lets nothing go: an item can't be dropped.
#[inline(always)]
pub(crate) fn let_go<T>(item: Option<T>)
    requires { item ≡ None }
{
    match item {
        None => {}
        Some(_) => unreachable!(),
    }
}

// Appends a lane, and takes no memory.
#[inline(always)]
pub(crate) fn put<T>(lanes: &mut Vec<Lane<T>>, lane: Lane<T>)
    requires { vec_len lanes.old < vec_capacity lanes.old }
    ensures items { lanes.new.items ≡ lanes.old.items ++ lane ∷ [] }
    ensures capacity { vec_capacity lanes.old ≤ vec_capacity lanes.new }
{
    lanes.push(lane).unwrap();
}
