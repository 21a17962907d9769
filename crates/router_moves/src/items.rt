// What a router works on.
use cargo_model::Cargo;
use hop_object::Leg;
use payload_pool::Hold;
use tlm_types::{Ps, TxnId};
use token_book::Ticket;

/// A request that was fetched from a hop above: the leg of its lane, the time in picoseconds of its
/// BEGIN_REQ, and its payload.
#[derive(Drop)]
pub struct RouterRequest {
    pub hop: u32,
    pub leg: Leg,
    pub at: Ps,
    pub cargo: Cargo,
}

/// What is behind a window: its hop, and the address there, in bytes.
#[derive(Clone, Copy, Debug, PartialEq, Eq)]
pub struct WayBehind {
    pub hop: u32,
    pub address: u64,
}

/// What a router keeps of a transaction that it passes on: the hop above with the leg of its lane, the hop
/// below, the reference that came with the request, and the ticket of the END_REQ that is owed above.
#[derive(Drop)]
pub struct PassedOn {
    pub txn: TxnId,
    pub above: u32,
    pub below: u32,
    pub leg: Leg,
    pub kept: Hold,
    pub owed: Option<Ticket>,
}

/// A request that is to go down, not before this time in picoseconds.
#[derive(Drop)]
pub struct Down {
    pub held: PassedOn,
    pub due: Ps,
    pub cargo: Cargo,
}

/// A request whose BEGIN_REQ below, at this time in picoseconds, brought the response by return. Its memory
/// is still to be called. The leg is that of END_RESP, where it is owed.
#[derive(Drop)]
pub struct BegunBelow {
    pub at: Ps,
    pub leg: Option<Leg>,
    pub cargo: Cargo,
}

/// A response that is back from a hop below, and may go up at this time in picoseconds. The leg is that of
/// END_RESP, where it is owed.
#[derive(Drop)]
pub struct Back {
    pub at: Ps,
    pub leg: Option<Leg>,
    pub cargo: Cargo,
}

/// A response that is to be sent on a hop above, by the leg of its lane and not before this time in
/// picoseconds.
#[derive(Drop)]
pub struct RouterResponse {
    pub hop: u32,
    pub leg: Leg,
    pub due: Ps,
    pub cargo: Cargo,
}

/// END_RESP that is owed below, by this leg and with this ticket; or the time in picoseconds at which the
/// transaction has ended there.
#[derive(Drop)]
pub enum End {
    Owed(Leg, Ticket),
    At(Ps),
}

/// What is to be made below once a transaction has ended above: the END_RESP that is owed, and the Release
/// of the reference of the hop below, with its ticket.
#[derive(Drop)]
pub struct Rest {
    pub txn: TxnId,
    pub below: u32,
    pub end: End,
    pub hold: Hold,
    pub ticket: Ticket,
}
