// The tickets of an access, from a port's wallet into its payload's.
ghost use Rattle.std.specs.Prelude.{◌≡◌, ◌<◌, ◌≤◌, is_some, length};
ghost use Rattle.token_book.specs.Purse.{IsOf, empty_purse};
ghost use Rattle.region_object.specs.Call.{payload_cost};
ghost use Rattle.plat_net.specs.Calls.{route_at};
ghost use Rattle.port_moves.specs.Stocks.{HasMoved, HasPaid, IsStocked, MayMove, MayStock, hops_at, place_at};

use crate::places::{hop_place, pool_place};
use crate::wallets::{hand_one, hand_over};
use cargo_net::TlmLaw;
use generic_payload::Payload;
use plat_net::{Net, Sharing};
use region_object::payload_cost;
use route_plan::Plan;
use shared_object::Naming;
use token_book::Wallet;

// Moves four tickets of each hop that the address passes into a wallet that is empty, and answers how many
// hops these are.
fn stock_hops<N: Naming<Plan, TlmLaw>, S: Sharing<N>>(
    net: &Net<N, S>,
    initiator: u32,
    address: u64,
    from: &mut Wallet,
    to: &mut Wallet,
) -> u32
    requires initiator { initiator < length N.frame.world.platform.initiators }
    requires tables { IsOf N.tokens from.old × IsOf N.tokens to.old }
    requires empty { to.old ≡ empty_purse 12 }
    requires may { MayMove N.frame.world initiator address from.old }
    ensures count { result ≡ length (hops_at N.frame.world initiator address) }
    ensures few { result ≤ 9 }
    ensures moved { HasMoved N.tokens (place_at N.frame.world initiator address) (length (hops_at N.frame.world initiator address)) from.old to.old from.new to.new }
{
    let mut index = 0;
    while let Some(hop) = net.plan().hops(initiator, address, index) {
        hand_over(net.tickets(), from, to, hop_place(net, hop), 4);
        index += 1;
    }
    index
}

// Moves the tickets of an access at this address into the wallet of its payload: four of each hop on its
// way, those of the references that are still to come, and one of the memory, where it has a route, for the
// bytes that the access logs there. Answers whether it has a route.
pub(crate) fn stock<N: Naming<Plan, TlmLaw>, S: Sharing<N>>(
    net: &Net<N, S>,
    initiator: u32,
    address: u64,
    payload: &Payload,
    from: &mut Wallet,
    to: &mut Wallet,
) -> bool
    requires initiator { initiator < length N.frame.world.platform.initiators }
    requires tables { IsOf N.tokens from.old × IsOf N.tokens to.old }
    requires empty { to.old ≡ empty_purse 12 }
    requires may { MayStock N.frame.world initiator address (payload_cost payload.now) from.old }
    ensures paid { HasPaid N.tokens N.frame.world initiator address (payload_cost payload.now) from.old from.new }
    ensures stocked { IsStocked N.tokens N.frame.world initiator address (payload_cost payload.now) to.new }
    ensures routed { result ≡ is_some (route_at N.frame.world initiator address) }
{
    let hops = stock_hops(net, initiator, address, from, to);
    let count = 2 * hops as u64 + 1;
    hand_over(net.tickets(), from, to, pool_place(net, initiator), count);
    let Some(route) = net.plan().route(initiator, address) else {
        return false;
    };
    let cost = payload_cost(payload);
    hand_one(net.tickets(), from, to, route.memory, cost);
    true
}
