ghost use Rattle.std.specs.Prelude.{◌≡◌, ℕ, ◌+◌, ◌/◌, ◌%◌, ◌≤◌, length};
ghost use Rattle.std.specs.List.{AllByRecursion, AllByRecursion-prop};
ghost use Rattle.std.proofs.Props.{props};
ghost use Rattle.preferences.specs.Constraints.{InRowLimit};

mod read;

// A list of rows as it is lent: whole rows of `dims` coefficients and a bound, at most 16 of them, each number within its limit.
#[derive(Clone, Copy)]
pub(super) struct RowList<'a> {
    dims: usize,
    numbers: &'a [i32],
    ghost least: { 1 ≤ dims },
    ghost most: { dims ≤ 8 },
    ghost whole: { length numbers.now % (dims + 1) ≡ 0 },
    ghost few: { length numbers.now / (dims + 1) ≤ 16 },
    ghost limits: { AllByRecursion InRowLimit numbers.now } by { Prim.hlevel (props, AllByRecursion-prop) },
}
