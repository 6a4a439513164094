ghost use Rattle.std.specs.Prelude.{◌≡◌, ◌-◌, ◌≤◌, ◌++◌, length, take, replicate, Decides};
ghost use Rattle.std.specs.List.{AllByRecursion};
ghost use Rattle.model.specs.Limits.{IsFigureCount};

use crate::Magnitude;
use std::array;

// The largest figure, part and multiplier.
pub(crate) const LIMIT: u64 = 1_000_000;

// The largest size of a difference's entry.
pub(crate) const RANGE: u64 = 1_000_000_000_000;

// Whether so many figures can be compared: 1 to 8.
pub fn is_figure_count(count: usize) -> bool
    ensures { Decides result (IsFigureCount count) }
{
    (1..=8).contains(&count)
}

// Whether every number is at most so large in size.
pub fn all_within<T: Magnitude>(numbers: &[T], most: u64) -> bool
    ensures { Decides result (AllByRecursion (λ number. T.size number ≤ most) numbers.now) }
{
    numbers.iter().all(|number| number.magnitude() <= most)
}

// The first eight numbers, filled up to eight with the filler.
pub fn padded<T: Copy>(numbers: &[T], filler: T) -> [T; 8]
    ensures { result ≡ take 8 numbers.now ++ replicate (8 - length numbers.now) filler }
{
    array::from_fn(|index| numbers.get(index).copied().unwrap_or(filler))
}
