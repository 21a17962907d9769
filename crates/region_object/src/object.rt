// A memory as an object of the history.
use crate::call::{RegionCall, RegionReply};
use crate::region::Region;
use entry_log::Log;
use one_history::Sign;
use shared_object::Object;
use tlm_types::MemoryTraits;
use token_book::Tokens;

impl Object for Region {
    ghost use Rattle.std.specs.Prelude.{◌-◌, true, false, [], length, ◌≡◌};
    ghost use Rattle.tlm_model.specs.Log.{IsLog};
    ghost use Rattle.region_object.specs.Call.{Fits, cost_of};
    ghost use Rattle.region_object.specs.Grants.{IsGrantLog};
    ghost use Rattle.region_object.specs.Region.{after_call, is_admitted, look_of, reply_of};
    ghost use Rattle.region_object.specs.Fitting.{more_fit};
    ghost use Rattle.region_object.specs.Written.{built_of, content_of, written_from};

    type Call = RegionCall;

    type Reply = RegionReply;

    type Item = ();

    type Made = MemoryTraits;

    ghost built = { built_of };

    ghost entries = { λ r. written_from 0 r.log.entries };

    ghost follows = { λ r. IsLog r.traits r.log.entries × IsGrantLog r.first_gate r.traits r.log.entries };

    ghost room = { λ r. r.log.room - length r.log.entries };

    ghost bytes_left = { λ r. r.log.room_bytes };

    ghost cost = { cost_of };

    ghost admitted = { is_admitted };

    ghost content = { content_of };

    ghost look = { look_of };

    ghost fits = { λ _ call known. Fits known call };

    ghost carried = { λ _. [] };

    ghost brought = { λ _ _. [] };

    ghost given = { λ _ _ _. [] };

    ghost applied = { λ r position call reply s. (s ≡ after_call r position call) × (reply ≡ reply_of r call) };

    ghost more_fit = { λ _ call xs ys more fit. more_fit call xs ys more fit };

    fn number(&self) -> u32 {
        Region::number(self)
    }

    fn admits(&self, call: &RegionCall) -> bool {
        // Here and after a call, the clauses of `log` say that the log is lawful.
        let _ = Region::log(self);
        Region::admits(self, call)
    }

    fn sign(&self, call: &RegionCall) -> Sign {
        Region::sign(self, call)
    }

    // A call that is admitted comes with the room for its entry and its bytes.
    #[inline(always)]
    fn apply(&mut self, _tokens: &Tokens, position: u64, call: RegionCall) -> RegionReply {
        let reply = Region::apply(self, position, call);
        let _ = Region::log(self);
        reply
    }

    fn log(&self) -> &Log {
        Region::log(self)
    }

    fn forget(&mut self) {
        Region::forget(self);
        let _ = Region::log(self);
    }

    fn room(&self) -> u64 {
        let log = Region::log(self);
        log.room().saturating_sub(log.len())
    }

    fn cost(call: &RegionCall) -> u64 {
        call.cost()
    }

    fn bytes_left(&self) -> u64 {
        Region::log(self).room_bytes()
    }
}
