ghost use Rattle.std.specs.Prelude.{◌≡◌, ℕ, Bool, true, List, length, slice_index};
ghost use Rattle.std.specs.List.{AllByRecursion};
ghost use Rattle.model.specs.Limits.{InLimit};
ghost use Rattle.model.specs.Variants.{NoGreater};

// A kind of variant. A variant means its list of figures, the same whenever it is read.
pub trait Variant {
    ghost figures: { Self → List ℕ };

    // At least as good as another variant of the kind, by the kind's own order.
    ghost better: { Self → Self → Bool };

    // How many figures there are.
    fn count(&self) -> usize
        ensures { result ≡ length (figures self.now) };

    // The figure at a place from 0, and 0 past the last.
    fn figure(&self, index: usize) -> u32
        ensures { result ≡ slice_index (figures self.now) index };

    fn at_least_as_good(&self, other: &Self) -> bool
        ensures { result ≡ better self.now other.now };

    ghost limits: { (x : Self) → AllByRecursion InLimit (figures x) };

    ghost order: { (x y : Self) → better x y ≡ true → NoGreater (figures x) (figures y) };
}
