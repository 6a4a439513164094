ghost use Rattle.std.specs.Prelude.{◌≤◌, map, vec_items, vec_len};
ghost use Rattle.std.proofs.Props.{props};
ghost use Rattle.std.specs.List.{AllByRecursion-prop};
ghost use Rattle.model.specs.Meaning.{Lawful};
ghost use Rattle.model.specs.Values.{parts_of};
ghost use Rattle.preferences.specs.Making.{rows_meaning};
ghost use Rattle.preferences.specs.StoredRow.{constraint_of};

use crate::row::Row;
use model::Weight;

mod asked;
mod flat;
mod made;
mod multiplied;

// A preference given by rows, at most 16 of them, with a sample weight.
#[derive(Drop)]
pub struct Rows {
    dims: usize,
    rows: Vec<Row>,
    sample: Weight,
    ghost few: { vec_len rows ≤ 16 },
    // The laws of a preference, which the trait asks for.
    ghost lawful: { Lawful (rows_meaning dims (map constraint_of (vec_items rows)) (parts_of sample)) } by { Prim.hlevel (props, AllByRecursion-prop) },
}
