use anyhow::{Context, Result};
use model::Variant;
use report::Spaced;
use std::array;
use variants::{CoverSheet, CoverTerms};

const NARROW: CoverTerms = CoverTerms {
    premium: 800,
    own_share: 500,
    sum_covered: 250_000,
    waiting_days: 30,
    exclusions: [true, false, true, false, false, false, false, false],
};

const WIDE: CoverTerms = CoverTerms {
    premium: 800,
    own_share: 500,
    sum_covered: 300_000,
    waiting_days: 30,
    exclusions: [true, false, false, false, false, false, false, false],
};

// The waiting time is above its limit.
const LATE: CoverTerms = CoverTerms {
    waiting_days: 3_651,
    ..WIDE
};

// Makes three cover sheets, one of which is refused, and compares the other two by their order.
pub(crate) fn compare_covers(rt: &HostRuntime) -> Result<()> {
    let narrow = make_cover(rt, NARROW)?.context("the first cover sheet was refused")?;
    let wide = make_cover(rt, WIDE)?.context("the second cover sheet was refused")?;
    make_cover(rt, LATE)?;
    let forth = word(narrow.at_least_as_good(&wide));
    let back = word(wide.at_least_as_good(&narrow));
    println!(rt; "the first cover sheet is at least as good as the second: {forth}")?;
    println!(rt; "the second cover sheet is at least as good as the first: {back}")?;
    Ok(())
}

// A `bool` prints true or false itself.
fn word(yes: bool) -> &'static str {
    if yes { "yes" } else { "no" }
}

// Makes a cover sheet and prints its figures, or why it was refused; the walkthrough prints other things of its sheets.
fn make_cover(rt: &HostRuntime, terms: CoverTerms) -> Result<Option<CoverSheet>> {
    let sum = terms.sum_covered;
    let days = terms.waiting_days;
    print!(rt; "a cover sheet for {sum} after {days} days: ")?;
    match CoverSheet::new(terms) {
        Ok(sheet) => {
            // An array, so that printing needs no memory.
            let figures: [u32; 8] = array::from_fn(|index| sheet.figure(index));
            println!(rt;
                "made, its figures are{}",
                Spaced(&figures[..sheet.count()])
            )?;
            Ok(Some(sheet))
        }
        Err(refusal) => {
            println!(rt; "refused {refusal}")?;
            Ok(None)
        }
    }
}
