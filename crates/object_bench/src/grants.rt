// Grants of a memory: why they are denied.
ghost use Rattle.region_object.specs.Call.{Fits, IsReadOrWrite};
ghost use Rattle.region_object.specs.Written.{written_from};

use region_object::{Denial, Region, RegionCall, RegionReply};
use std::alloc::Global;
use std::process::Abort;
use tlm_types::{Command, Kind, MemoryTraits, TxnId};

const TXN: TxnId = TxnId {
    initiator: 1,
    seq: 3,
};

// A memory of eight bytes and one gate, with room for eight entries and eight bytes of them.
fn blank(rt: &impl Abort, alloc: Global, dmi: bool, writable: bool) -> Region {
    let traits = MemoryTraits {
        size: 8,
        latency: 10,
        readable: true,
        writable,
        fetch_add: false,
        enables: true,
        streaming: true,
        dmi,
        gates: 1,
    };
    Region::new(alloc, 0, traits, 8, 8, 0).expect(rt, "memory")
}

// Makes a call.
fn make(rt: &impl Abort, region: &mut Region, call: RegionCall) -> RegionReply
    requires fit { Fits (written_from 0 region.old.log.entries) call }
{
    let position = region.log().len();
    assert!(rt; position < region.log().room() && call.cost() <= region.log().room_bytes());
    region.apply(position, call)
}

// Wishes for a grant.
fn ask(rt: &impl Abort, region: &mut Region, command: Command) -> RegionReply
    requires command { IsReadOrWrite command }
{
    let call = RegionCall::Grant {
        txn: TXN,
        time: 10,
        command,
    };
    make(rt, region, call)
}

#[test]
fn grants_are_denied_in_order(rt: HostRuntime) {
    let mut region = blank(&rt, rt.alloc(), false, false);
    assert!(rt;
        matches!(
            ask(&rt, &mut region, Command::Write),
            RegionReply::Denied(Denial::NoDmi)
        )
    );
    let mut region = blank(&rt, rt.alloc(), true, false);
    assert!(rt;
        matches!(
            ask(&rt, &mut region, Command::Write),
            RegionReply::Denied(Denial::NotAllowed)
        )
    );
    let RegionReply::Granted {
        gate,
        first,
        last,
        kind,
    } = ask(&rt, &mut region, Command::Read)
    else {
        panic!(rt; "no grant");
    };
    assert!(rt; gate == 0 && first == 0 && last == 7 && kind == Kind::Read);
    assert!(rt;
        matches!(
            ask(&rt, &mut region, Command::Read),
            RegionReply::Denied(Denial::GatesSpent)
        )
    );
    assert!(rt; region.log().len() == 1);
}
