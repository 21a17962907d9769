// A node between hops, as it is pumped.
ghost use Rattle.view_lists.specs.Lists.{Within};
ghost use Rattle.one_history.specs.Lists.{StandBelow};
ghost use Rattle.shared_object.specs.Steps.{IsNote};

use plat_net::{Net, PlatNote, Sharing, TlmLaw};
use route_plan::Plan;
use shared_object::Naming;
use std::sync::Wait;

/// What a pump has done.
#[derive(Clone, Copy, Debug, PartialEq, Eq)]
pub enum Pumped {
    /// It has moved something on.
    Did,
    /// There was nothing that it could do.
    Nothing,
}

/// What a step of an actor has come to.
#[derive(Clone, Copy, Debug, PartialEq, Eq)]
pub enum OneStep {
    /// It has made one entry.
    Made,
    /// There is nothing that it can do before others have moved.
    Waits,
    /// It has nothing more to do.
    Finished,
}

/// A memory or a router between the hops of a net.
pub trait Node<N: Naming<Plan, TlmLaw>>: Drop {
    ghost use Rattle.std.specs.Prelude.{List};
    ghost use Rattle.one_history.specs.declared.entry.Entry.{Entry};
    ghost use Rattle.tlm_types.specs.declared.entry.Content.{Content};

    /// What it keeps, by what is known.
    ghost keeps: { Self → List (Entry Content) → Type 0 };

    /// A loop's turn of it, which takes no memory and can't fail.
    fn pump<S: Sharing<N>, R: Wait>(
        &mut self,
        net: &Net<N, S>,
        rt: &R,
        note: PlatNote,
    ) -> (Pumped, PlatNote)
        requires node { keeps self.old note.knows.known }
        requires note { IsNote N.table note }
        requires below { StandBelow note.knows.known note.knows.seen }
        ensures node { keeps self.new result.1.knows.known }
        ensures note { IsNote N.table result.1 }
        ensures knew { Within note.knows.known result.1.knows.known }
        ensures below { StandBelow result.1.knows.known result.1.knows.seen };

    /// Whether a pump may find something to do, by what the net tells of hops. No clause speaks of it.
    fn may_move<S: Sharing<N>>(&self, net: &Net<N, S>) -> bool;
}
