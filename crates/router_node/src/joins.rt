// A response from below and the transaction that it belongs to.
ghost use Rattle.std.specs.Prelude.{◌↔◌, IfSome, IsTrue};
ghost use Rattle.router_node.specs.Finds.{IsFound};
ghost use Rattle.router_node.specs.Joins.{HasJoined, IsOf, IsTheOne};
ghost use Rattle.router_node.specs.Stages.{IsStage};

use crate::finds::Found;
use crate::stage::Stage;
use plat_net::{Net, PlatNote, Sharing, TlmLaw};
use route_plan::Plan;
use router_moves::{PassedOn, turn_up};
use shared_object::Naming;

// Whether a response from below is that of a transaction that has gone down there.
fn is_of(held: &PassedOn, found: &Found) -> bool
    ensures { IsTrue result ↔ IsOf held.now found.now }
{
    held.txn == found.fetched.txn && held.below == found.hop
}

// Whether a response from below is that of a transaction that the router holds.
pub(crate) fn is_joined(stage: &Stage, found: &Found) -> bool
    ensures { IsTrue result ↔ IsTheOne found.now stage.now }
{
    match stage {
        Stage::Below(held) => is_of(held, found),
        _ => false,
    }
}

/// Joins a response from below with a transaction that the router holds, if it is that one's: it is to go up
/// then. Else both come back as they were. It makes no entry.
pub fn join<N: Naming<Plan, TlmLaw>, S: Sharing<N>>(
    net: &Net<N, S>,
    note: &PlatNote,
    stage: Stage,
    found: Found,
) -> (Stage, Option<Found>)
    requires stage { IsStage N.frame N.tokens note.now.knows.known stage }
    requires found { IsFound N.frame N.tokens note.now.knows.known found }
    ensures stage { IsStage N.frame N.tokens note.now.knows.known result.0 }
    ensures found { IfSome result.1 (IsFound N.frame N.tokens note.now.knows.known) }
    ensures joined { HasJoined stage found result.0 result.1 }
{
    match stage {
        Stage::Below(held) => {
            if !is_of(&held, &found) {
                return (Stage::Below(held), Some(found));
            }
            let (response, rest) = turn_up(net, note, held, found.fetched.back);
            (Stage::Up(response, Some(rest)), None)
        }
        stage => (stage, Some(found)),
    }
}
