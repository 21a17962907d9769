//! A law of a pool's references. A pool's log follows its slots at all times.
ghost use Rattle.std.specs.Prelude.{◌≡◌, ℕ, true};
ghost use Rattle.payload_pool.specs.Pool.{Follows, PoolView};
ghost use Rattle.payload_pool.specs.Calls.{is_out};
ghost use Rattle.payload_pool.specs.Laws.{NamesTransaction};

/// The name of a hold or a baton that is out gives its life and its transaction: the log has one entry at
/// the position that the name tells, the Take of that life, and the reference's slot has its transaction.
pub fn references_name_transactions()
    ensures { (pool : PoolView) (name : ℕ) → Follows pool → is_out pool name ≡ true → NamesTransaction pool name }
{}
