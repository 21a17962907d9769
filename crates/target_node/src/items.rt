// What a memory works on.
use cargo_model::Cargo;
use hop_object::Leg;
use tlm_types::Ps;
use token_book::Ticket;

/// A request that was fetched from a hop: the leg of its lane, the time in picoseconds of its BEGIN_REQ, and its
/// payload, from whose wallet the ticket of the END_REQ that is owed was pulled.
#[derive(Drop)]
pub struct MemoryRequest {
    pub hop: u32,
    pub leg: Leg,
    pub at: Ps,
    pub cargo: Cargo,
}

/// What came of a fetch: the request, with the ticket of END_REQ where one is owed.
#[derive(Drop)]
pub struct FromHop {
    pub request: MemoryRequest,
    pub ticket: Option<Ticket>,
}

/// A response that is to be sent on a hop, by the leg of its lane and not before this time in picoseconds.
#[derive(Drop)]
pub struct MemoryResponse {
    pub hop: u32,
    pub leg: Leg,
    pub due: Ps,
    pub cargo: Cargo,
}
