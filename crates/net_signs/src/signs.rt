// What calls have left at the hops of a net and at its pools.
use crate::count::Count;
use base_phases::LaneState;
use cargo_net::{Answered, FetchedRequest, FetchedResponse, Forwarded, Taken, Tried};
use std::alloc::{AllocError, Global};
use tlm_types::TlmSync;

/// What calls have left at the hops of a net and at the pool of each initiator, so that a call is made only where it may
/// come to something. No clause rests on it: what stands in an object is seen by a call at it alone.
pub struct Signs<C: Count> {
    hops: Vec<HopSigns<C>>,
    pools: Vec<PoolSigns<C>>,
}

// How many requests and responses wait at a hop to be fetched, how many are open there, how many lanes are in use, and how
// many there are, once a request was refused for want of one.
#[derive(Drop)]
struct HopSigns<C: Count> {
    requests: C,
    responses: C,
    open_requests: C,
    open_responses: C,
    live: C,
    lanes: C,
}

// How many slots of a pool are live, and how many there are, once a payload was refused for want of one.
#[derive(Drop)]
struct PoolSigns<C: Count> {
    live: C,
    slots: C,
}

// Written out, so that crates above call it and needn't prove again how each part is let go of.
impl<C: Count> Drop for Signs<C> {
    fn drop(self) {
        let Signs {
            hops: _hops,
            pools: _pools,
        } = self;
    }
}

impl<C: Count> HopSigns<C> {
    fn none() -> HopSigns<C> {
        HopSigns {
            requests: C::of(0),
            responses: C::of(0),
            open_requests: C::of(0),
            open_responses: C::of(0),
            live: C::of(0),
            lanes: C::of(u64::MAX),
        }
    }
}

impl<C: Count> PoolSigns<C> {
    fn none() -> PoolSigns<C> {
        PoolSigns {
            live: C::of(0),
            slots: C::of(u64::MAX),
        }
    }
}

fn no_hops<C: Count>(alloc: Global, count: usize) -> Result<Vec<HopSigns<C>>, AllocError> {
    let mut hops = Vec::with_capacity(alloc, count)?;
    for _k in 0..count {
        hops.push(HopSigns::none())?;
    }
    Ok(hops)
}

fn no_pools<C: Count>(alloc: Global, count: usize) -> Result<Vec<PoolSigns<C>>, AllocError> {
    let mut pools = Vec::with_capacity(alloc, count)?;
    for _k in 0..count {
        pools.push(PoolSigns::none())?;
    }
    Ok(pools)
}

impl<C: Count> HopSigns<C> {
    fn count_as<D: Count>(&self, other: &HopSigns<D>) {
        self.requests.set(other.requests.value());
        self.responses.set(other.responses.value());
        self.open_requests.set(other.open_requests.value());
        self.open_responses.set(other.open_responses.value());
        self.live.set(other.live.value());
        self.lanes.set(other.lanes.value());
    }

    // A request was left for the component downstream. It is open where it was only accepted.
    fn leave_request(&self, answer: TlmSync) {
        self.requests.raise();
        self.live.raise();
        if matches!(answer, TlmSync::Accepted) {
            self.open_requests.raise();
        }
    }

    // A response came by return. Where END_RESP is owed, it is open.
    fn take_return(&self, owed: bool) {
        if owed {
            self.live.raise();
            self.open_responses.raise();
        }
    }

    // A request was refused. Where none is open, so many lanes are all.
    fn refuse(&self, is_open: bool, live: u32) {
        if !is_open {
            self.lanes.set(live as u64);
        }
    }

    // A response was left for the component upstream, on a lane that had this state. It is open where it was only accepted.
    fn leave_response(&self, was: LaneState, answer: TlmSync) {
        self.responses.raise();
        if matches!(was, LaneState::Requested) {
            self.open_requests.lower();
        }
        if matches!(answer, TlmSync::Accepted) {
            self.open_responses.raise();
        }
    }

    // A response was fetched. Where no END_RESP is owed, its lane is free.
    fn take_response(&self, owed: bool) {
        self.responses.lower();
        if !owed {
            self.live.lower();
        }
    }

    fn end_response(&self) {
        self.open_responses.lower();
        self.live.lower();
    }
}

impl<C: Count> PoolSigns<C> {
    fn count_as<D: Count>(&self, other: &PoolSigns<D>) {
        self.live.set(other.live.value());
        self.slots.set(other.slots.value());
    }
}

impl<C: Count> Signs<C> {
    /// Those of so many hops and initiators before the first call. The only error is want of memory.
    pub fn new(alloc: Global, hops: usize, initiators: usize) -> Result<Signs<C>, AllocError> {
        Ok(Signs {
            hops: no_hops(alloc, hops)?,
            pools: no_pools(alloc, initiators)?,
        })
    }

    /// Counts what others have counted, of as many hops and initiators.
    pub fn count_as<D: Count>(&self, others: &Signs<D>) {
        for (own, other) in self.hops.iter().zip(others.hops.iter()) {
            own.count_as(other);
        }
        for (own, other) in self.pools.iter().zip(others.pools.iter()) {
            own.count_as(other);
        }
    }

    fn hop(&self, hop: u32) -> Option<&HopSigns<C>> {
        self.hops.get(hop as usize)
    }

    fn pool(&self, initiator: u32) -> Option<&PoolSigns<C>> {
        self.pools.get(initiator as usize)
    }

    /// Notes what BEGIN_REQ has come to, without the access at a memory.
    pub fn note_tried(&self, hop: u32, tried: &Tried) {
        let Some(signs) = self.hop(hop) else {
            return;
        };
        match tried {
            Tried::Left { answer, .. } => signs.leave_request(*answer),
            Tried::Now { leg, .. } => signs.take_return(leg.is_some()),
            Tried::Busy { holder, live, .. } => signs.refuse(holder.is_some(), *live),
        }
    }

    /// Notes what BEGIN_REQ has come to with the access at a memory.
    pub fn note_forwarded(&self, hop: u32, forwarded: &Forwarded) {
        let Some(signs) = self.hop(hop) else {
            return;
        };
        match forwarded {
            Forwarded::Left { answer, .. } => signs.leave_request(*answer),
            Forwarded::Now { leg, .. } => signs.take_return(leg.is_some()),
            Forwarded::Busy { holder, live, .. } => signs.refuse(holder.is_some(), *live),
        }
    }

    /// Notes END_REQ.
    pub fn note_end_req(&self, hop: u32) {
        if let Some(signs) = self.hop(hop) {
            signs.open_requests.lower();
        }
    }

    /// Notes what BEGIN_RESP has come to, on a lane that had this state.
    pub fn note_answered(&self, hop: u32, was: LaneState, answered: &Answered) {
        let Some(signs) = self.hop(hop) else {
            return;
        };
        match answered {
            Answered::Sent { answer, .. } => signs.leave_response(was, *answer),
            Answered::Busy { .. } => {}
        }
    }

    /// Notes END_RESP.
    pub fn note_end_resp(&self, hop: u32) {
        if let Some(signs) = self.hop(hop) {
            signs.end_response();
        }
    }

    /// Notes that a request was fetched, if one was.
    pub fn note_request(&self, hop: u32, fetched: &Option<FetchedRequest>) {
        let Some(signs) = self.hop(hop) else {
            return;
        };
        if fetched.is_some() {
            signs.requests.lower();
        }
    }

    /// Notes that a response was fetched, if one was.
    pub fn note_response(&self, hop: u32, fetched: &Option<FetchedResponse>) {
        let Some(signs) = self.hop(hop) else {
            return;
        };
        if let Some(response) = fetched {
            signs.take_response(response.leg.is_some());
        }
    }

    /// Notes what a Take has come to.
    pub fn note_taken(&self, initiator: u32, taken: &Taken) {
        let Some(signs) = self.pool(initiator) else {
            return;
        };
        match taken {
            Taken::Took { .. } => signs.live.raise(),
            Taken::Full { .. } => signs.slots.set(signs.live.value()),
        }
    }

    /// Notes that a reference went back to the pool, which freed its slot or not.
    pub fn note_released(&self, initiator: u32, freed: bool) {
        let Some(signs) = self.pool(initiator) else {
            return;
        };
        if freed {
            signs.live.lower();
        }
    }

    /// Whether a request waits at a hop for the component downstream.
    pub fn has_request(&self, hop: u32) -> bool {
        match self.hop(hop) {
            Some(signs) => signs.requests.value() != 0,
            None => false,
        }
    }

    /// Whether a response waits at a hop for the component upstream.
    pub fn has_response(&self, hop: u32) -> bool {
        match self.hop(hop) {
            Some(signs) => signs.responses.value() != 0,
            None => false,
        }
    }

    /// Whether no request is open at a hop, and a lane is free.
    pub fn may_begin(&self, hop: u32) -> bool {
        match self.hop(hop) {
            Some(signs) => {
                signs.open_requests.value() == 0 && signs.live.value() < signs.lanes.value()
            }
            None => true,
        }
    }

    /// Whether no response is open at a hop.
    pub fn may_respond(&self, hop: u32) -> bool {
        match self.hop(hop) {
            Some(signs) => signs.open_responses.value() == 0,
            None => true,
        }
    }

    /// Whether a slot of an initiator's pool is free.
    pub fn may_take(&self, initiator: u32) -> bool {
        match self.pool(initiator) {
            Some(signs) => signs.live.value() < signs.slots.value(),
            None => true,
        }
    }
}
