// Accesses along the routes of a net.
ghost use Rattle.std.specs.Prelude.{◌≡◌, ◌<◌, Some, true, false, length, slice_get, slice_set};
ghost use Rattle.std.specs.Option.{ForSome};
ghost use Rattle.tlm_types.specs.declared.words.Command.TheVariants.{Read};
ghost use Rattle.tlm_model.specs.Store.{zeros};
ghost use Rattle.region_object.specs.Call.{payload_cost};
ghost use Rattle.tlm_types.specs.declared.words.TxnId.{TxnId as Txn};
ghost use Rattle.platform_shape.specs.Shape.{IsBlocking};
ghost use Rattle.plat_net.specs.Calls.{CanPay, HasNoPassage, route_at};
ghost use Rattle.run_tests.specs.Bag.{IsBag};

use crate::bench::blocking_plan;
use crate::runs::BUS;
use blocking_path::{b_transport, transport_dbg};
use generic_payload::Payload;
use plat_build::{Built, Kept, Opened, Start, build};
use plat_net::{Carried, Net, OneThread, PlatNote, TlmLaw};
use region_object::payload_cost;
use route_plan::Plan;
use shared_object::Naming;
use std::alloc::Global;
use std::marker::Brand;
use std::process::Abort;
use std::sync::Wait;
use tlm_types::{Ps, Response, TxnId};
use token_book::Wallet;

// A net that one thread has.
type Own<N> = Net<N, OneThread>;

/// What each of the two initiators asks for.
const SCRIPT: &str = "write 0x104 aabb\ndebug 0x105 2\n";

/// What an initiator goes about with.
#[derive(Drop)]
struct Bag {
    payload: Payload,
    note: PlatNote,
    wallet: Wallet,
    seq: u64,
    at: Ps,
}

// Nobody passes a hop: no initiator of a blocking platform is of four phases.
fn none_passes<N: Naming<Plan, TlmLaw>>(net: &Own<N>)
    requires { IsBlocking net.now.platform }
    ensures { (x : Txn) → HasNoPassage net.now x }
{
    let _ = net;
}

// The wallet has a ticket for it, where it has a route.
fn can_pay<N: Naming<Plan, TlmLaw>>(
    rt: &impl Abort,
    net: &Own<N>,
    who: u32,
    payload: &Payload,
    wallet: &Wallet,
)
    requires { who < length net.now.platform.initiators }
    ensures { ForSome (route_at net.now who payload.now.address) (CanPay payload.now wallet.now) }
{
    if let Some(route) = net.plan().route(who, payload.address()) {
        assert!(rt; wallet.left(route.memory) > 0);
        assert!(rt; wallet.bytes(route.memory) >= payload_cost(payload));
    }
}

// What an initiator goes on with after the access or debug read of this number.
fn come_back<N: Naming<Plan, TlmLaw>>(carried: Carried, wallet: Wallet, seq: u64) -> Bag
    requires { IsBag N.table N.tokens carried.payload carried.note wallet }
    ensures { IsBag N.table N.tokens result.payload result.note result.wallet }
{
    let Carried { payload, note, at } = carried;
    Bag {
        payload,
        note,
        wallet,
        seq: seq.saturating_add(1),
        at,
    }
}

// Makes the access of the payload.
fn access<N: Naming<Plan, TlmLaw>, R: Wait + Abort>(rt: &R, net: &Own<N>, who: u32, bag: Bag) -> Bag
    requires who { who < length net.now.platform.initiators }
    requires blocking { IsBlocking net.now.platform }
    requires bag { IsBag N.table N.tokens bag.payload bag.note bag.wallet }
    requires buffer { bag.payload.command ≡ Read → bag.payload.bytes ≡ zeros (length bag.payload.bytes) }
    ensures { IsBag N.table N.tokens result.payload result.note result.wallet }
{
    let Bag {
        payload,
        note,
        mut wallet,
        seq,
        at,
    } = bag;
    can_pay::<N>(rt, net, who, &payload, &wallet);
    none_passes::<N>(net);
    let txn = TxnId {
        initiator: who,
        seq,
    };
    let carried = b_transport(net, rt, who, payload, note, &mut wallet, txn, at);
    come_back::<N>(carried, wallet, seq)
}

// Makes the debug read of the payload.
fn look<N: Naming<Plan, TlmLaw>, R: Wait + Abort>(rt: &R, net: &Own<N>, who: u32, bag: Bag) -> Bag
    requires who { who < length net.now.platform.initiators }
    requires blocking { IsBlocking net.now.platform }
    requires bag { IsBag N.table N.tokens bag.payload bag.note bag.wallet }
    requires read { bag.payload.command ≡ Read }
    ensures { IsBag N.table N.tokens result.payload result.note result.wallet }
{
    let Bag {
        payload,
        note,
        mut wallet,
        seq,
        at,
    } = bag;
    can_pay::<N>(rt, net, who, &payload, &wallet);
    none_passes::<N>(net);
    let txn = TxnId {
        initiator: who,
        seq,
    };
    let carried = transport_dbg(net, rt, who, payload, note, &mut wallet, txn, at);
    come_back::<N>(carried, wallet, seq)
}

// The last access or debug read ended so, and at this time.
fn has_ended(bag: &Bag, status: Response, at: Ps) -> bool {
    bag.payload.status() == status && bag.at == at
}

// A write of two bytes, and a debug read from the second of them on.
fn tour<N: Naming<Plan, TlmLaw>, R: Wait + Abort>(rt: &R, net: &Own<N>, who: u32, mut bag: Bag)
    requires who { who < length net.now.platform.initiators }
    requires blocking { IsBlocking net.now.platform }
    requires bag { IsBag N.table N.tokens bag.payload bag.note bag.wallet }
{
    bag.payload.set_write(0x104, &[0xaa, 0xbb], 2);
    let mut bag = access::<N, R>(rt, net, who, bag);
    assert!(rt; has_ended(&bag, Response::Ok, 25));
    bag.payload.set_read(0x105, 2, 2);
    let bag = look::<N, R>(rt, net, who, bag);
    assert!(rt; has_ended(&bag, Response::Ok, 25));
    assert!(rt; bag.payload.bytes() == [0xbb, 0].as_slice());
}

// What an initiator of the two starts with.
fn bag_of<N: Naming<Plan, TlmLaw>>(kept: &mut Kept<N>, who: u32) -> Bag
    requires { slice_get kept.old.starts who ≡ Some true }
    ensures bag { IsBag N.table N.tokens result.payload result.note result.wallet }
    ensures kept { kept.new ≡ record kept.old { starts = slice_set kept.old.starts who false } }
{
    let Start {
        engine: _,
        payload,
        note,
        wallet,
    } = kept.start(who);
    Bag {
        payload,
        note,
        wallet,
        seq: 0,
        at: 0,
    }
}

// One initiator goes about alone. The call picks N.
fn alone<N: Naming<Plan, TlmLaw>, R: Wait + Abort>(
    rt: &R,
    alloc: Global,
    plan: &Plan,
    opened: Opened,
)
    requires history { (opened.table ≡ N.table) × (opened.frame ≡ N.frame) }
    requires tickets { opened.tokens ≡ N.tokens }
    requires plan { plan.now ≡ N.frame.world }
    requires blocking { IsBlocking plan.now.platform }
{
    assert!(rt; plan.platform().initiators.as_slice().len() == 2);
    let Built { net, mut kept } = build::<N, OneThread>(alloc, opened, plan).expect(rt, "a net");
    let bag = bag_of::<N>(&mut kept, 0);
    tour::<N, R>(rt, &net, 0, bag);
}

#[test]
fn an_initiator_makes_its_accesses(rt: HostRuntime) {
    let plan = blocking_plan(&rt, rt.alloc(), BUS, &[SCRIPT, SCRIPT]);
    let opened = Opened::new(rt.alloc(), &plan).expect(&rt, "a history");
    alone::<Brand, HostRuntime>(&rt, rt.alloc(), &plan, opened);
}
