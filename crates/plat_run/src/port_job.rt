// A four-phase initiator as a job.
ghost use Rattle.std.specs.Prelude.{◌≡◌, ◌↔◌, ◌<◌, true, false, length};
ghost use Rattle.net_end.specs.Leaves.{IsFinished};
ghost use Rattle.plat_run.specs.Turn.{IsPortTurn, finishes, turn_by};

use crate::turn::JobTurn;
use crate::waits::Waits;
use fourphase_port::Port;
use outside::Pace;
use plat_net::{Net, PlatNote, Sharing, TlmLaw};
use port_moves::Pumped;
use route_plan::Plan;
use shared_object::Naming;
use std::marker::Model;
use std::sync::Wait;
use tlm_types::EndOf;
use token_book::Wallet;

/// A four-phase initiator under way: its port, and whether it has finished. Contracts see both.
#[derive(Drop)]
pub struct PortJob<N: Naming<Plan, TlmLaw>> {
    number: u32,
    port: Port<N>,
    /// The last access or debug read that the pace was told of.
    announced: Option<u64>,
    finished: bool,
    waits: Waits,
}

impl<N: Naming<Plan, TlmLaw>> Model for PortJob<N> {
    ghost use Rattle.std.specs.Coded.{codes};
    ghost use Rattle.token_book.specs.Purse.{purse_code};
    ghost use Rattle.plat_run.specs.Ports.{IsPortRun, PortRun};

    ghost Value = { PortRun };

    ghost coded = { Prim.hlevel (codes, purse_code) };

    ghost view = { λ j. record { port = j.port; finished = j.finished } };

    ghost invariant = { λ j. IsPortRun N.frame j.number j.port j.finished };
}

// What a turn comes to, by its pump.
fn turn_by(pumped: Pumped) -> JobTurn
    ensures { result ≡ turn_by pumped }
{
    match pumped {
        Pumped::Did | Pumped::Finished => JobTurn::WentOn,
        Pumped::Nothing => JobTurn::Idle,
    }
}

// Whether the pump is the last one.
fn finishes(pumped: Pumped) -> bool
    ensures { result ≡ finishes pumped }
{
    match pumped {
        Pumped::Finished => true,
        Pumped::Did | Pumped::Nothing => false,
    }
}

impl<N: Naming<Plan, TlmLaw>> PortJob<N> {
    /// A port that begins, of the initiator with this number.
    pub fn new(number: u32, port: Port<N>) -> PortJob<N>
        requires number { port.port.engine.initiator ≡ number }
        requires below { number < length N.frame.world.platform.initiators }
        ensures port { result.port ≡ port }
        ensures finished { result.finished ≡ false }
    {
        PortJob {
            number,
            port,
            announced: None,
            finished: false,
            waits: Waits::none(),
        }
    }

    /// The number of its initiator.
    pub fn number(&self) -> u32
        ensures { result ≡ self.now.port.port.engine.initiator }
    {
        self.number
    }

    /// Whether it has finished.
    pub fn done(&self) -> bool
        ensures { result ≡ self.now.finished }
    {
        self.finished
    }

    // Tells the pace of the access or debug read that is next, unless it was told of it before.
    fn announce<P: Pace>(&mut self, pace: &P)
        ensures { self.new ≡ self.old }
    {
        let Some(seq) = self.port.asks() else {
            return;
        };
        if self.announced != Some(seq) {
            self.announced = Some(seq);
            pace.before(self.number, seq);
        }
    }

    /// One pump. The pace is told of each access and debug read once, before the first pump at which it is next,
    /// while no lock is held.
    pub fn turn<S: Sharing<N>, P: Pace, R: Wait>(
        &mut self,
        rt: &R,
        net: &Net<N, S>,
        pace: &P,
    ) -> JobTurn
        ensures number { self.new.port.port.engine.initiator ≡ self.old.port.port.engine.initiator }
        ensures pumped { IsPortTurn N.frame self.old self.new result }
    {
        self.announce(pace);
        let pumped = self.port.pump(rt, net);
        self.finished = finishes(pumped);
        turn_by(pumped)
    }

    /// Whether it is to be passed over.
    pub fn rests<S: Sharing<N>>(&mut self, net: &Net<N, S>) -> bool
        ensures { self.new ≡ self.old }
    {
        self.waits.rests(self.port.may_move(net))
    }

    /// A turn, unless it has finished or is to be passed over, and whether it needs more.
    pub(crate) fn visit<S: Sharing<N>, P: Pace, R: Wait>(
        &mut self,
        rt: &R,
        net: &Net<N, S>,
        pace: &P,
    ) -> bool
        ensures number { self.new.port.port.engine.initiator ≡ self.old.port.port.engine.initiator }
        ensures more { (result ≡ true) ↔ (self.new.finished ≡ false) }
    {
        if !self.finished && !self.rests(net) {
            let _ = self.turn(rt, net, pace);
        }
        !self.finished
    }

    /// What it leaves where it has finished: how its initiator ended, its wallet, and its note.
    pub fn finish(self) -> (EndOf, Wallet, PlatNote)
        requires { self.finished ≡ true }
        ensures { IsFinished N.table N.tokens N.frame.world self.port.port.engine.initiator result.0 result.2 result.1 }
    {
        let PortJob {
            number: _,
            port,
            announced: _,
            finished: _,
            waits: _,
        } = self;
        let (note, wallet, end) = port.finish();
        (end, wallet, note)
    }

    /// Lets go of it. Its number is that of an initiator.
    pub(crate) fn let_go(self)
        ensures { self.port.port.engine.initiator < length N.frame.world.platform.initiators }
    {
        let PortJob {
            number: _,
            port: _,
            announced: _,
            finished: _,
            waits: _,
        } = self;
    }
}
