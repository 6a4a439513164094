// Plays one task from beginning to end: a farm's preference, five tariff sheets of a barn, and a solver's claims about them, checked.
#![tactic(auto)]

use crate::barn::Barn;
use crate::claims::{Claim, check};
use anyhow::{Context, Result};
use model::Share;
use preferences::Rows;
use report::Spaced;
use variants::PlainSheet;

mod barn;
mod claims;
mod printed;

const SHEETS: [[u32; 2]; 5] = [[12, 40], [20, 28], [22, 36], [24, 16], [40, 10]];

const BY_TWO: [Share; 1] = [Share {
    variant: 2,
    share: 1,
}];

const BY_FOUR: [Share; 1] = [Share {
    variant: 4,
    share: 1,
}];

const BY_ONE_AND_FOUR: [Share; 2] = [
    Share {
        variant: 1,
        share: 1,
    },
    Share {
        variant: 4,
        share: 1,
    },
];

// The solver's three claims, and the second one again with other multipliers.
const CLAIMS: [Claim<'static>; 6] = [
    Claim {
        target: 3,
        mixture: &BY_TWO,
        multipliers: &[0],
    },
    Claim {
        target: 5,
        mixture: &BY_FOUR,
        multipliers: &[6],
    },
    Claim {
        target: 2,
        mixture: &BY_ONE_AND_FOUR,
        multipliers: &[0],
    },
    Claim {
        target: 5,
        mixture: &BY_FOUR,
        multipliers: &[5],
    },
    Claim {
        target: 5,
        mixture: &BY_FOUR,
        multipliers: &[16],
    },
    Claim {
        target: 5,
        mixture: &BY_FOUR,
        multipliers: &[17],
    },
];

fn main(rt: HostRuntime) -> Result<()> {
    run(&rt)
}

fn run(rt: &HostRuntime) -> Result<()> {
    let preference = Rows::new(rt.alloc(), 2, &[-1, 1, 0], &[1, 1])
        .ok()
        .context("the preference was not made")?;
    println!(rt;
        "a preference over premium and own share: row -1 1 with bound 0, sample 1 1, so premium counts at least as much"
    )?;
    let mut sheets = Vec::new(rt.alloc());
    for figures in &SHEETS {
        let sheet = make_sheet(rt, figures)?.context("a sheet of the barn was refused")?;
        sheets.push(sheet)?;
    }
    check_claims(rt, &preference, &Barn::new(sheets.as_slice()))?;
    // One more, with a figure above the limit.
    make_sheet(rt, &[40, 1_000_001])?;
    Ok(())
}

// Makes a plain sheet and prints what came of it.
fn make_sheet(rt: &HostRuntime, figures: &[u32]) -> Result<Option<PlainSheet>> {
    print!(rt; "a sheet of{}: ", Spaced(figures))?;
    match PlainSheet::new(figures) {
        Ok(sheet) => {
            println!(rt; "made")?;
            Ok(Some(sheet))
        }
        Err(refusal) => {
            println!(rt; "refused {refusal}")?;
            Ok(None)
        }
    }
}

// Checks each claim and prints what was found.
fn check_claims(rt: &HostRuntime, preference: &Rows, barn: &Barn<'_>) -> Result<()> {
    for claim in CLAIMS {
        let finding = check(rt.alloc(), preference, barn, claim)?;
        println!(rt; "{claim}")?;
        println!(rt; "{finding}")?;
    }
    Ok(())
}
