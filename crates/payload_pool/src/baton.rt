// The references to a pooled payload.
ghost use Rattle.std.specs.Prelude.{◌≡◌};
ghost use Rattle.payload_pool.specs.Slots.{acquired_of};

use generic_payload::Payload;
use std::marker::Model;
use tlm_types::TxnId;
use token_book::{One, Wallet};

/// A reference beside the initiator's own. Contracts see its token.
#[derive(Drop)]
pub struct Hold {
    pub(crate) token: One,
}

impl Model for Hold {
    ghost use Rattle.std.specs.Prelude.{◌≡◌, ◌<◌, ◌%◌};
    ghost use Rattle.token_book.specs.Account.{Slip, slip_code};

    ghost Value = { Slip };

    ghost coded = { slip_code };

    ghost view = { λ h. h.token };

    ghost invariant = { λ h. (h.token.amount ≡ 1) × (h.token.name % 32 < 15) };
}

impl Hold {
    /// The number of Acquires of its life before its own.
    pub fn number(&self) -> u32
        ensures { result ≡ acquired_of self.now.name }
    {
        self.token.name() % 16
    }
}

// The initiator's own reference.
#[derive(Drop)]
pub struct Own {
    pub(crate) token: One,
}

impl Model for Own {
    ghost use Rattle.std.specs.Prelude.{◌≡◌, ◌≤◌, ◌%◌};
    ghost use Rattle.token_book.specs.Account.{Slip, slip_code};

    ghost Value = { Slip };

    ghost coded = { slip_code };

    ghost view = { λ o. o.token };

    ghost invariant = { λ o. (o.token.amount ≡ 1) × (16 ≤ o.token.name % 32) };
}

impl Own {
    pub(crate) fn name(&self) -> u32
        ensures { result ≡ self.now.name }
    {
        self.token.name()
    }
}

/// A payload that was taken from a pool, with the wallet that stays with it, and the initiator's own
/// reference.
#[derive(Drop)]
pub struct Baton {
    pub payload: Payload,
    pub wallet: Wallet,
    pub(crate) slot: u32,
    pub(crate) txn: TxnId,
    pub(crate) own: Own,
}

impl Baton {
    /// The slot of its payload.
    pub fn slot(&self) -> u32
        ensures { result ≡ self.now.slot }
    {
        self.slot
    }

    /// The transaction for which it was taken.
    pub fn txn(&self) -> TxnId
        ensures { result ≡ self.now.txn }
    {
        self.txn
    }

    /// How many references were acquired beside its own.
    pub fn acquired(&self) -> u32
        ensures { result ≡ acquired_of self.now.own.name }
    {
        self.own.name() % 16
    }
}
