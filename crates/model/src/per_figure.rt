ghost use Rattle.std.specs.Prelude.{⊤, ◌≡◌, ◌≤◌, length};

use std::alloc::AllocError;

mod methods;

// A number for each figure: 1 to 8 of them. It is `Copy` and needs no memory, so it holds room for eight and a count.
pub struct PerFigure<T> {
    numbers: [T; 8],
    count: usize,
    ghost least: { 1 ≤ count },
    ghost most: { count ≤ 8 },
    ghost stored: { count ≤ length numbers },
}

// By hand, since no `Clone` is derived for a generic struct with ghost fields.
impl<T: Copy> Clone for PerFigure<T> {
    ghost is_clone = { λ held copy. copy ≡ held };

    ghost is_infallible = { λ _. ⊤ };

    fn clone(&self) -> Result<PerFigure<T>, AllocError> {
        Ok(*self)
    }
}

impl<T: Copy> Copy for PerFigure<T> {}
