// The sums over all memories.
ghost use Rattle.std.specs.Prelude.{◌≡◌, sum, nat_le};
ghost use Rattle.platform_model.specs.Reading.{Gives};
ghost use Rattle.platform_file.specs.Platform.{checked_sums};

use platform_model::{Place, PlatformCode, PlatformFault};
use std::alloc::Global;
use tlm_model::MemoryRow;

/// The bytes that all memories may have together, 64 MiB.
const MOST_BYTES: u64 = 67_108_864;

/// The gates that all memories may have together.
const MOST_GATES: u64 = 1_024;

/// Whether the numbers sum to at most the limit.
fn is_within(numbers: &[u64], limit: u64) -> bool
    ensures { result ≡ nat_le (sum numbers.now) limit }
{
    let mut left = limit;
    for number in numbers {
        if left < *number {
            return false;
        }
        left -= *number;
    }
    true
}

/// That the sizes of the memories, and then their gates, are within their limits.
pub fn check_sums(alloc: Global, memories: &[MemoryRow]) -> Result<(), PlatformFault>
    ensures { Gives result (checked_sums memories.now) }
{
    let sizes: Vec<u64> = memories.iter().map(|m| m.traits.size).collect(alloc)?;
    if !is_within(sizes.as_slice(), MOST_BYTES) {
        return Err(Place::Top.refuse(alloc, PlatformCode::TooMuchMemory, "memory"));
    }
    let gates: Vec<u64> = memories
        .iter()
        .map(|m| m.traits.gates as u64)
        .collect(alloc)?;
    if !is_within(gates.as_slice(), MOST_GATES) {
        return Err(Place::Top.refuse(alloc, PlatformCode::TooManyGates, "memory"));
    }
    Ok(())
}
