// The numbers that lines are made of.
ghost use Rattle.std.specs.Prelude.{◌≡◌};
ghost use Rattle.traffic_gen.specs.Numbers.{next};

/// The number that follows. It is the multiplier and the increment of Knuth's MMIX generator.
pub(crate) fn next(number: u64) -> u64
    ensures { result ≡ next number }
{
    number
        .wrapping_mul(6364136223846793005)
        .wrapping_add(1442695040888963407)
}
