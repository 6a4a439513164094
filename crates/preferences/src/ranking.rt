ghost use Rattle.std.specs.Prelude.{◌≤◌};
ghost use Rattle.model.specs.Meaning.{Lawful};
ghost use Rattle.preferences.specs.Rankings.{ranking_meaning};

mod asked;
mod made;

// A preference that ranks 1 to 8 figures: none counts more than the one before it.
#[derive(Clone, Copy)]
pub struct Ranking {
    dims: usize,
    ghost least: { 1 ≤ dims },
    ghost most: { dims ≤ 8 },
    // The laws of a preference, which the trait asks for.
    ghost lawful: { Lawful (ranking_meaning dims) },
}
