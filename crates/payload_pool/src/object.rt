// A pool as an object of the history.
use crate::call::{PoolCall, PoolReply};
use crate::pool::{Pool, PoolMade};
use entry_log::Log;
use one_history::Sign;
use shared_object::Object;
use token_book::Tokens;

impl Object for Pool {
    ghost use Rattle.std.specs.Prelude.{◌≡◌, ◌-◌, [], length, map, false};
    ghost use Rattle.numbered_log.specs.Logged.{written_by};
    ghost use Rattle.payload_pool.specs.Pool.{Follows};
    ghost use Rattle.payload_pool.specs.Calls.{built_of, admitted, content_of, Fits, look_of, Applied};

    type Call = PoolCall;

    type Reply = PoolReply;

    type Item = ();

    type Made = PoolMade;

    ghost built = { built_of };

    ghost entries = { λ v. map written_by v.log.events };

    ghost follows = { Follows };

    ghost room = { λ v. v.log.room - length v.log.events };

    ghost bytes_left = { λ _. 0 };

    ghost cost = { λ _. 0 };

    ghost admitted = { admitted };

    ghost content = { content_of };

    ghost look = { look_of };

    ghost fits = { λ v call _. Fits v call };

    ghost carried = { λ _. [] };

    ghost brought = { λ _ _. [] };

    ghost given = { λ _ _ _. [] };

    ghost applied = { Applied };

    ghost more_fit = { λ _ _ _ _ _ fit. fit };

    fn number(&self) -> u32 {
        self.initiator()
    }

    #[inline(always)]
    fn admits(&self, call: &PoolCall) -> bool {
        // Here and after a call, the clauses of `log` say that the slots are those of the log.
        let _ = Pool::log(self);
        match call {
            PoolCall::Take { .. } => self.has_free(),
            PoolCall::Acquire { baton, .. } | PoolCall::Stow { baton, .. } => {
                self.is_out(baton.own.name())
            }
            PoolCall::Release { hold, .. } => self.is_out(hold.token.name()),
            PoolCall::Live => false,
        }
    }

    fn sign(&self, call: &PoolCall) -> Sign {
        match call {
            PoolCall::Take { .. }
            | PoolCall::Acquire { .. }
            | PoolCall::Release { .. }
            | PoolCall::Stow { .. }
            | PoolCall::Live => Sign::Plain,
        }
    }

    #[inline(always)]
    fn apply(&mut self, tokens: &Tokens, position: u64, call: PoolCall) -> PoolReply {
        let reply = match call {
            PoolCall::Take { txn, at } => PoolReply::Took(self.take(tokens, position, txn, at)),
            PoolCall::Acquire { baton, at } => {
                let (baton, hold) = self.acquire(tokens, position, baton, at);
                PoolReply::Acquired(baton, hold)
            }
            PoolCall::Release { hold, at } => PoolReply::Released {
                freed: self.release(tokens, position, hold, at),
            },
            PoolCall::Stow { baton, at } => PoolReply::Released {
                freed: self.stow(tokens, position, baton, at),
            },
            PoolCall::Live => PoolReply::Live(self.live()),
        };
        let _ = Pool::log(self);
        reply
    }

    fn log(&self) -> &Log {
        Pool::log(self)
    }

    // It keeps all entries in store, each with its number.
    fn forget(&mut self) {
        let _ = Pool::log(self);
    }

    fn room(&self) -> u64 {
        let log = Pool::log(self);
        log.room().saturating_sub(log.len())
    }

    fn cost(_call: &PoolCall) -> u64 {
        0
    }

    fn bytes_left(&self) -> u64 {
        0
    }
}
