// The moves of a port in its script that make no entry.
ghost use Rattle.std.specs.Prelude.{◌≡◌, length, None};
ghost use Rattle.atomic_table.specs.Seated.{TableId};
ghost use Rattle.one_history.specs.Held.{Held};
ghost use Rattle.one_history.specs.declared.view.Frame.{Frame};
ghost use Rattle.tlm_types.specs.declared.entry.Content.{Content};
ghost use Rattle.tlm_model.specs.Plan.{Plan};
ghost use Rattle.script_engine.specs.declared.part.Part.TheVariants.{Pauses};
ghost use Rattle.script_engine.specs.State.{next_of, op_of};
ghost use Rattle.port_model.specs.Issues.{IsWaitingOp};
ghost use Rattle.port_model.specs.Laws.{HasSettled};
ghost use Rattle.port_moves.specs.declared.hand.Hand.TheVariants as Hands;
ghost use Rattle.port_moves.specs.Moves.{Passes, Settles};
ghost use Rattle.port_moves.specs.State.{IsPort, with_note};

use crate::state::PortState;
use script_engine::Pause;

impl PortState {
    /// Nothing is outstanding: the current time becomes the greatest of itself and all end times so far.
    pub fn settle(&mut self)
        requires hand { (self.old.hand ≡ Hands.Free) × (self.old.held ≡ None) }
        requires free { length self.old.port.away ≡ 0 }
        requires waiting { IsWaitingOp (op_of self.old.port.engine) }
        ensures settled { Settles self.old self.new }
        ensures port { (table tokens : TableId) (frame : Frame Plan) (note : Held Content Plan) →
            IsPort table tokens frame (with_note self.old note) → IsPort table tokens frame (with_note self.new note) }
    {
        self.settle_time();
    }

    fn settle_time(&mut self)
        requires free { length self.old.port.away ≡ 0 }
        requires waiting { IsWaitingOp (op_of self.old.port.engine) }
        ensures { Settles self.old self.new }
    {
        self.time = self.time.max(self.latest);
    }

    /// Goes on after a wait, a sync or a fence, once the current time is settled.
    pub fn pass(&mut self, pause: Pause)
        requires hand { (self.old.hand ≡ Hands.Free) × (self.old.held ≡ None) }
        requires settled { HasSettled self.old.port }
        requires next { next_of self.old.port.engine ≡ Pauses pause }
        ensures passed { Passes pause self.old self.new }
        ensures port { (table tokens : TableId) (frame : Frame Plan) (note : Held Content Plan) →
            IsPort table tokens frame (with_note self.old note) → IsPort table tokens frame (with_note self.new note) }
    {
        self.pass_on(pause);
    }

    fn pass_on(&mut self, pause: Pause)
        requires next { next_of self.old.port.engine ≡ Pauses pause }
        ensures { Passes pause self.old self.new }
    {
        if let Pause::Wait(time) = pause {
            self.time = self.time.saturating_add(time);
        }
        self.engine.passed();
    }
}
