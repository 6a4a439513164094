ghost use Rattle.preferences.specs.Cases.{WorkedCases};

// The worked cases hold of the definitions.
pub fn worked_cases()
    ensures { WorkedCases }
{}
