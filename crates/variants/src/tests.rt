use crate::{CoverSheet, CoverTerms, EitherVariant, PlainSheet, Sheet};
use model::Variant;
use std::test::Fail;

const NONE: [bool; 8] = [false; 8];

const FIRST: [bool; 8] = [true, false, false, false, false, false, false, false];

const LAST_TWO: [bool; 8] = [false, false, false, false, false, false, true, true];

const ALL: [bool; 8] = [true; 8];

fn terms(premium: u32, own_share: u32, sum: u32, days: u32, exclusions: [bool; 8]) -> CoverTerms {
    CoverTerms {
        premium,
        own_share,
        sum_covered: sum,
        waiting_days: days,
        exclusions,
    }
}

fn cover(terms: CoverTerms) -> Result<CoverSheet, Fail> {
    CoverSheet::new(terms).map_err(|_| Fail::new("the cover sheet was refused"))
}

#[test]
fn cover_sheets_keep_their_limits(rt: HostRuntime) -> Result<(), Fail> {
    for (terms, refusal) in [
        (terms(1_000_000, 1_000_000, 1_000_000, 3_650, ALL), None),
        (terms(1_000_001, 0, 0, 0, NONE), Some(8)),
        (terms(0, 1_000_001, 0, 0, NONE), Some(8)),
        (terms(0, 0, 1_000_001, 0, NONE), Some(8)),
        (terms(0, 0, 0, 3_651, NONE), Some(8)),
    ] {
        let refused = CoverSheet::new(terms).err();
        assert_eq!(rt; refused.map(|ground| ground.number()), refusal);
    }
    let sheet = cover(terms(800, 500, 250_000, 30, LAST_TWO))?;
    assert_eq!(rt; sheet.count(), 5);
    // With the index, since a figure is read by its place.
    for (index, figure) in [800, 500, 750_000, 30, 2, 0].iter().enumerate() {
        assert_eq!(rt; sheet.figure(index), *figure);
    }
    Ok(())
}

#[test]
fn cover_sheets_are_compared_term_by_term(rt: HostRuntime) -> Result<(), Fail> {
    let sheet = cover(terms(800, 500, 250_000, 30, LAST_TWO))?;
    for (terms, better, worse) in [
        (terms(800, 500, 250_000, 30, LAST_TWO), true, true),
        (terms(799, 500, 250_000, 30, LAST_TWO), true, false),
        (terms(800, 499, 250_000, 30, LAST_TWO), true, false),
        (terms(800, 500, 250_001, 30, LAST_TWO), true, false),
        (terms(800, 500, 250_000, 29, LAST_TWO), true, false),
        (terms(800, 500, 250_000, 30, NONE), true, false),
        (terms(800, 500, 250_000, 30, FIRST), false, false),
        (terms(799, 500, 250_000, 31, LAST_TWO), false, false),
    ] {
        let other = cover(terms)?;
        assert_eq!(rt; other.at_least_as_good(&sheet), better);
        assert_eq!(rt; sheet.at_least_as_good(&other), worse);
    }
    Ok(())
}

#[test]
fn no_sheet_is_at_least_as_good_as_one_of_another_kind(rt: HostRuntime) -> Result<(), Fail> {
    let plain = PlainSheet::new(&[0, 0, 0, 0, 0]).map_err(|_| Fail::new(
        "the plain sheet was refused",
    ))?;
    let plain: Sheet = EitherVariant::First(plain);
    let cover: Sheet = EitherVariant::Second(cover(terms(800, 500, 250_000, 30, NONE))?);
    assert_eq!(rt; plain.count(), cover.count());
    assert_eq!(rt; plain.at_least_as_good(&plain), true);
    assert_eq!(rt; plain.at_least_as_good(&cover), false);
    assert_eq!(rt; cover.at_least_as_good(&plain), false);
    assert_eq!(rt; cover.at_least_as_good(&cover), true);
    Ok(())
}
