// Copies of shares and scripts.
ghost use Rattle.std.specs.Prelude.{◌≡◌, Ok, IfOk};
ghost use Rattle.std.specs.List.{AllByRecursion};
ghost use Rattle.traffic_script.specs.Proper.{AreProper};
ghost use Rattle.platform_model.specs.Reading.{Gives};

use crate::shares::Share;
use platform_model::{PlatformFault, RowKind, rows};
use std::alloc::Global;
use tlm_model::Rows;
use tlm_types::Memory;
use traffic_script::Script;

/// The copies of rows, each of which is the row.
#[derive(Drop)]
struct Copies;

impl RowKind<Share> for Copies {
    type Row = Share;

    ghost reads = { λ _ _ row. Ok row };

    fn read(&self, _alloc: Global, _index: usize, item: &Share) -> Result<Share, PlatformFault> {
        Ok(*item)
    }
}

impl RowKind<Rows<Share>> for Copies {
    type Row = Rows<Share>;

    ghost reads = { λ _ _ row. Ok row };

    fn read(
        &self,
        alloc: Global,
        _index: usize,
        item: &Rows<Share>,
    ) -> Result<Rows<Share>, PlatformFault> {
        rows(alloc, &Copies, item.as_slice())
    }
}

/// Copies of shares. Its only error is want of memory.
pub fn copy_shares(
    alloc: Global,
    shares: &[Rows<Share>],
) -> Result<Rows<Rows<Share>>, PlatformFault>
    ensures { Gives result (Ok shares.now) }
{
    rows(alloc, &Copies, shares)
}

/// Copies of scripts, each of which is as a text gives one. Its only error is want of memory.
pub fn copy_scripts(alloc: Global, scripts: &[Script]) -> Result<Rows<Script>, Memory>
    ensures same { IfOk result (λ copies. copies ≡ scripts.now) }
    ensures proper { IfOk result (AllByRecursion AreProper) }
{
    let mut copies = Vec::new(alloc);
    for script in scripts {
        let copy = script.copy(alloc)?;
        copies.push(copy)?;
    }
    Ok(Rows::from_vec(copies))
}
