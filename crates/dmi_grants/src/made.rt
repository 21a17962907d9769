// Steps at a memory of a net.
ghost use Rattle.std.specs.Prelude.{◌≡◌, ◌<◌, ◌⊎◌, ℕ, false, length, None, Some};
ghost use Rattle.std.specs.Option.{ForSome};
ghost use Rattle.one_history.specs.Gates.{total_gates};
ghost use Rattle.shared_object.specs.Steps.{HasTicket, IsInside, IsNote, unspent};
ghost use Rattle.token_book.specs.Purse.{HasPlace, IsOf, left_of};
ghost use Rattle.region_object.specs.declared.call.RegionCall.TheVariants.{Overlapping};
ghost use Rattle.region_object.specs.declared.call.RegionReply.TheVariants.{Overlapping as OverlappingReply};
ghost use Rattle.dmi_grants.specs.Made.{HasGot, HasSpent, IsMade, IsPlainTicket, IsRoomyFor, MayMake, MayMakeInside, added, count_of, is_question};

use plat_net::{Net, PlatNote, Sharing, TlmLaw};
use region_object::{RegionCall, RegionReply};
use route_plan::Plan;
use shared_object::{Naming, Stepped};
use std::sync::Wait;
use token_book::{Ticket, Wallet};

/// What a step at a memory answers. The ticket comes back where no entry was added.
#[derive(Drop)]
pub(crate) struct Made {
    pub reply: RegionReply,
    pub position: Option<u64>,
    pub note: PlatNote,
    pub ticket: Option<Ticket>,
}

/// Makes a call at the memory with this number, with a note that is inside no gate.
pub(crate) fn make<N: Naming<Plan, TlmLaw>, S: Sharing<N>, R: Wait>(
    net: &Net<N, S>,
    rt: &R,
    memory: u32,
    note: PlatNote,
    ticket: Option<Ticket>,
    call: RegionCall,
) -> Made
    requires memory { memory < length N.frame.world.platform.memories }
    requires note { IsNote N.table note }
    requires may { MayMake N.frame.world memory note.knows call }
    requires ticket { is_question call ≡ false → HasTicket N.tokens memory 0 ticket }
    ensures made { IsMade N.frame memory call note.knows result.note.knows result.position result.reply }
    ensures note { IsNote N.table result.note }
    ensures ticket { result.ticket ≡ unspent result.position ticket }
{
    let _ = net.plan();
    let place = net.memory(memory);
    let stepped = place.step(rt, net.history(), net.tickets(), note, ticket, call);
    let Stepped {
        reply,
        position,
        note,
        ticket,
    } = stepped;
    Made {
        reply,
        position,
        note,
        ticket,
    }
}

/// Makes a direct access at the memory with this number, with a note that is inside the gate, and leaves it.
pub(crate) fn make_inside<N: Naming<Plan, TlmLaw>, S: Sharing<N>, R: Wait>(
    net: &Net<N, S>,
    rt: &R,
    memory: u32,
    gate: u32,
    note: PlatNote,
    ticket: Ticket,
    call: RegionCall,
) -> Made
    requires memory { memory < length N.frame.world.platform.memories }
    requires note { IsInside N.table gate note }
    requires gate { gate < total_gates N.frame }
    requires may { MayMakeInside N.frame.world N.tokens memory gate note.knows ticket call }
    ensures made { IsMade N.frame memory call note.knows result.note.knows result.position result.reply }
    ensures note { IsNote N.table result.note }
{
    let _ = net.plan();
    let place = net.memory(memory);
    let stepped = place.step_leaving(rt, net.history(), net.tickets(), note, ticket, gate, call);
    let Stepped {
        reply,
        position,
        note,
        ticket,
    } = stepped;
    Made {
        reply,
        position,
        note,
        ticket,
    }
}

// Takes a ticket of the memory, for an entry without bytes, out of the wallet.
fn take<N: Naming<Plan, TlmLaw>, S: Sharing<N>>(
    net: &Net<N, S>,
    wallet: &mut Wallet,
    memory: u32,
) -> Ticket
    requires of { IsOf N.tokens wallet.old }
    requires room { IsRoomyFor memory wallet.old }
    requires left { 0 < left_of wallet.old memory }
    ensures ticket { IsPlainTicket N.tokens memory result }
    ensures of { IsOf N.tokens wallet.new }
    ensures room { IsRoomyFor memory wallet.new }
    ensures held { (o : ℕ) → HasPlace wallet.new o → HasPlace wallet.old o }
    ensures spent { HasSpent memory 1 wallet.old wallet.new }
{
    wallet.pull(net.tickets(), memory, 0)
}

// Puts a ticket that comes back into the wallet that it was taken from.
fn put_back<N: Naming<Plan, TlmLaw>, S: Sharing<N>>(
    net: &Net<N, S>,
    wallet: &mut Wallet,
    memory: u32,
    ticket: Option<Ticket>,
)
    requires of { IsOf N.tokens wallet.old }
    requires room { IsRoomyFor memory wallet.old }
    requires ticket { ForSome ticket (IsPlainTicket N.tokens memory) }
    ensures of { IsOf N.tokens wallet.new }
    ensures room { IsRoomyFor memory wallet.new }
    ensures held { (o : ℕ) → HasPlace wallet.new o → (o ≡ memory) ⊎ HasPlace wallet.old o }
    ensures back { HasGot memory (count_of ticket) wallet.old wallet.new }
{
    let Some(Ticket { entry, bytes: _ }) = ticket else {
        return;
    };
    wallet.put_one(net.tickets(), memory, entry);
}

/// Makes a call at the memory with this number, which may add an entry without bytes. A ticket of the
/// memory is spent where it does.
pub(crate) fn make_paid<N: Naming<Plan, TlmLaw>, S: Sharing<N>, R: Wait>(
    net: &Net<N, S>,
    rt: &R,
    memory: u32,
    note: PlatNote,
    wallet: &mut Wallet,
    call: RegionCall,
) -> (RegionReply, Option<u64>, PlatNote)
    requires memory { memory < length N.frame.world.platform.memories }
    requires note { IsNote N.table note }
    requires may { MayMake N.frame.world memory note.knows call }
    requires of { IsOf N.tokens wallet.old }
    requires room { IsRoomyFor memory wallet.old }
    requires left { 0 < left_of wallet.old memory }
    ensures made { IsMade N.frame memory call note.knows result.2.knows result.1 result.0 }
    ensures note { IsNote N.table result.2 }
    ensures of { IsOf N.tokens wallet.new }
    ensures room { IsRoomyFor memory wallet.new }
    ensures rooms { (m : ℕ) → IsRoomyFor m wallet.old → IsRoomyFor m wallet.new }
    ensures spent { HasSpent memory (added result.1) wallet.old wallet.new }
{
    let ticket = take(net, wallet, memory);
    let Made {
        reply,
        position,
        note,
        ticket,
    } = make(net, rt, memory, note, Some(ticket), call);
    put_back(net, wallet, memory, ticket);
    (reply, position, note)
}

/// Asks the memory for the least gate whose grant overlaps the range, was given before this position, and
/// isn't closed. The note comes back knowing all that was written there.
pub(crate) fn least_open<N: Naming<Plan, TlmLaw>, S: Sharing<N>, R: Wait>(
    net: &Net<N, S>,
    rt: &R,
    memory: u32,
    first: u64,
    last: u64,
    before: u64,
    note: PlatNote,
) -> (Option<u32>, PlatNote)
    requires memory { memory < length N.frame.world.platform.memories }
    requires note { IsNote N.table note }
    ensures made { IsMade N.frame memory (Overlapping 0 first last before) note.knows result.1.knows None (OverlappingReply result.0) }
    ensures note { IsNote N.table result.1 }
{
    let call = RegionCall::Overlapping {
        from: 0,
        first,
        last,
        before,
    };
    let Made {
        reply,
        position: _,
        note,
        ticket: _,
    } = make(net, rt, memory, note, None, call);
    match reply {
        RegionReply::Overlapping(gate) => (gate, note),
        _ => unreachable!(),
    }
}
