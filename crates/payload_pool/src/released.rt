// Whether a reference was given back.
ghost use Rattle.std.specs.Prelude.{◌≡◌, ◌<◌, ◌↔◌, IsSomeAnd, IsTrue, length, slice_get};
ghost use Rattle.flow_model.specs.Events.{Among, Finds, IsReleased};
ghost use Rattle.payload_pool.specs.Released.{IsReleaseRead, was_release};

use crate::pool::Pool;
use tlm_types::{Head, ObjectNo, TxnId, What};

// Whether a reference was given back.
fn was_release(what: &Option<What>) -> bool
    ensures { result ≡ was_release what.now }
{
    matches!(what, Some(What::Release { .. }))
}

// Whether an entry that was read is the Release of a transaction with this number.
fn is_release(head: Head, what: &Option<What>, number: u32, txn: TxnId, wanted: u32) -> bool
    ensures { IsTrue result ↔ IsReleaseRead head what.now number txn wanted }
{
    head.object == ObjectNo::Pool(txn.initiator)
        && head.txn == txn
        && number == wanted
        && was_release(what)
}

impl Pool {
    // Whether the entry at a place is the Release of a transaction with this number.
    fn is_release_at(&self, at: usize, txn: TxnId, number: u32) -> bool
        requires { at < length self.now.log.events }
        ensures { IsTrue result ↔ IsSomeAnd (slice_get self.now.log.events at) (IsReleased txn number) }
    {
        let log = self.log.log();
        let numbers = self.log.numbers();
        let what = log.what(at as u64);
        is_release(log.head(at as u64), &what, numbers[at] as u32, txn, number)
    }

    /// Whether its log has the Release of a transaction with this number: 0 and up for the references that were
    /// acquired, in order, and 15 for the initiator's own (IEEE 1666-2011, clause 14.5).
    pub fn has_released(&self, txn: TxnId, number: u32) -> bool
        ensures { IsTrue result ↔ Finds (Among self.now.log.events) (IsReleased txn number) }
    {
        for at in 0..self.log.log().len() as usize {
            if self.is_release_at(at, txn, number) {
                return true;
            }
        }
        false
    }
}
