ghost use Rattle.variants.specs.Either.{either_figures, either_better};
ghost use Rattle.std.proofs.Common.{rules};

use model::Variant;

// A variant of one of two kinds, so that one list can hold both; neither is a failure or an absence.
#[derive(Clone, Copy)]
pub enum EitherVariant<A, B> {
    First(A),
    Second(B),
}

// At least as good only within one kind, by that kind's order.
impl<A: Variant, B: Variant> Variant for EitherVariant<A, B> {
    ghost figures = { either_figures A.Variant.figures B.Variant.figures };

    ghost better = { either_better A.Variant.better B.Variant.better };

    ghost limits = { Prim.search rules };

    ghost order = { Prim.search rules };

    fn count(&self) -> usize {
        match self {
            EitherVariant::First(variant) => variant.count(),
            EitherVariant::Second(variant) => variant.count(),
        }
    }

    fn figure(&self, index: usize) -> u32 {
        match self {
            EitherVariant::First(variant) => variant.figure(index),
            EitherVariant::Second(variant) => variant.figure(index),
        }
    }

    fn at_least_as_good(&self, other: &EitherVariant<A, B>) -> bool {
        match (self, other) {
            (EitherVariant::First(variant), EitherVariant::First(other)) => {
                variant.at_least_as_good(other)
            }
            (EitherVariant::Second(variant), EitherVariant::Second(other)) => {
                variant.at_least_as_good(other)
            }
            _ => false,
        }
    }
}
