ghost use Rattle.std.specs.Prelude.{◌≡◌, length, MatchOption};
ghost use Rattle.model.specs.Limits.{IsFigureCount};
ghost use Rattle.model.specs.Numbers.{numbers_of};

use crate::lists::padded;
use crate::per_figure::PerFigure;

impl<T: Copy> PerFigure<T> {
    // The numbers in their order; none where there are not 1 to 8.
    pub fn new(numbers: &[T]) -> Option<PerFigure<T>>
        ensures { MatchOption result (IsFigureCount (length numbers.now) → ⊥) (λ made. (numbers_of made ≡ numbers.now) × IsFigureCount (length numbers.now)) }
    {
        let first = *numbers.first()?;
        let count = numbers.len();
        if count > 8 {
            return None;
        }
        let numbers = padded(numbers, first);
        Some(PerFigure { numbers, count })
    }

    pub fn as_slice(&self) -> &[T]
        ensures { result.now ≡ numbers_of self.now }
    {
        let all = &self.numbers[..];
        &all[..self.count]
    }
}
