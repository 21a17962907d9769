// Memories and routers as jobs.
ghost use Rattle.std.specs.Prelude.{◌≡◌, ◌↔◌, ◌<◌, true, false};
ghost use Rattle.plat_run.specs.Nodes.{IsNode};
ghost use Rattle.plat_run.specs.Turn.{is_held_back};

use crate::turn::JobTurn;
use crate::waits::Waits;
use node_hops::{Node, Pumped};
use plat_net::{Net, PlatNote, Sharing, TlmLaw};
use route_plan::Plan;
use shared_object::Naming;
use std::marker::{Model, PhantomData};
use std::sync::Wait;

/// A memory or a router between hops, with its note. Contracts see its number among the jobs.
// The note is away only while it is pumped, which carries it along.
#[derive(Drop)]
pub struct NodeJob<N: Naming<Plan, TlmLaw>, K: Node<N>> {
    number: u32,
    node: K,
    note: Option<PlatNote>,
    waits: Waits,
    of: PhantomData<N>,
}

impl<N: Naming<Plan, TlmLaw>, K: Node<N>> Model for NodeJob<N, K> {
    ghost use Rattle.std.specs.Prelude.{ℕ};
    ghost use Rattle.plat_run.specs.Nodes.{IsAtRest};

    ghost Value = { ℕ };

    ghost view = { λ j. j.number };

    ghost invariant = { λ j. IsAtRest N.table K.keeps j.node j.note };
}

impl<N: Naming<Plan, TlmLaw>, K: Node<N>> NodeJob<N, K> {
    /// The job with this number, of a node with its note.
    pub fn new(number: u32, node: K, note: PlatNote) -> NodeJob<N, K>
        requires { IsNode N.table K.keeps node note }
        ensures { result ≡ number }
    {
        NodeJob {
            number,
            node,
            note: Some(note),
            waits: Waits::none(),
            of: PhantomData,
        }
    }

    /// Its number among the jobs.
    pub fn number(&self) -> u32
        ensures { result ≡ self.now }
    {
        self.number
    }

    /// One pump.
    pub fn turn<S: Sharing<N>, R: Wait>(&mut self, rt: &R, net: &Net<N, S>) -> JobTurn
        ensures number { self.new ≡ self.old }
        ensures turn { is_held_back result ≡ false }
    {
        let note = self.note.take().unwrap();
        let (pumped, note) = self.node.pump(net, rt, note);
        self.note = Some(note);
        match pumped {
            Pumped::Did => JobTurn::WentOn,
            Pumped::Nothing => JobTurn::Idle,
        }
    }

    /// Whether it is to be passed over.
    pub fn rests<S: Sharing<N>>(&mut self, net: &Net<N, S>) -> bool
        ensures { self.new ≡ self.old }
    {
        self.waits.rests(self.node.may_move(net))
    }

    /// A turn, unless it is to be passed over, and whether it is one of the first so many jobs.
    pub(crate) fn visit<S: Sharing<N>, R: Wait>(
        &mut self,
        rt: &R,
        net: &Net<N, S>,
        count: u32,
    ) -> bool
        ensures number { self.new ≡ self.old }
        ensures first { (result ≡ true) ↔ (self.new < count) }
    {
        if !self.rests(net) {
            let _ = self.turn(rt, net);
        }
        self.number < count
    }
}
