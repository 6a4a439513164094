ghost use Rattle.std.specs.Prelude.{◌≡◌};
ghost use Rattle.model.specs.Judging.{judgement};

// What a preference says of a difference and multipliers.
#[derive(Clone, Copy, PartialEq, Eq, Debug)]
pub enum Judgement {
    OutOfRange,
    Shown,
    NotShown,
}

// Of a rule that has no range: shown where the rule holds.
impl From<bool> for Judgement {
    ghost from_gives = { λ holds r. r ≡ judgement holds };

    fn from(holds: bool) -> Judgement {
        if holds {
            Judgement::Shown
        } else {
            Judgement::NotShown
        }
    }
}
