ghost use Rattle.std.specs.Prelude.{ℕ, List};
ghost use Rattle.preferences.specs.Constraints.{Constraint};
ghost use Rattle.preferences.specs.FurtherRows.{JoinsRows};

// A further row over rows says what the rows say with that row in front.
pub fn further_row_joins_rows()
    ensures { (d : ℕ) (row : Constraint) (rows : List Constraint) (sample : List ℕ) → JoinsRows d row rows sample }
{}
