// Plays the further kinds: the differences of two claims under a ranking, one of them under one row more over it, and three cover sheets, two of them compared.
#![tactic(auto)]

use crate::covers::compare_covers;
use crate::questions::ask;
use anyhow::{Context, Result};
use preferences::{FurtherRow, Ranking};

mod covers;
mod questions;

// The difference of the claim that sheet 4 is never worse than sheet 5, of a barn's five sheets.
const FIVE_BY_FOUR: [i64; 2] = [16, -6];

// The difference of the claim that sheet 1 is never worse than sheet 2.
const TWO_BY_ONE: [i64; 2] = [8, -12];

fn main(rt: HostRuntime) -> Result<()> {
    ask_ranked(&rt)?;
    compare_covers(&rt)
}

// Two differences under a ranking, and one of them under one row more over it.
fn ask_ranked(rt: &HostRuntime) -> Result<()> {
    let ranking = Ranking::new(2).context("the ranking was not made")?;
    println!(rt; "a ranking of premium before own share")?;
    ask(rt, &ranking, &FIVE_BY_FOUR, &[])?;
    ask(rt, &ranking, &TWO_BY_ONE, &[])?;
    let back = FurtherRow::new(ranking, &[-10, 0, -6], &[1, 1])
        .err()
        .context("a sample that does not keep the row was let in")?;
    println!(rt;
        "one row more over it: row -10 0 with bound -6, sample 1 1: refused {}",
        back.error
    )?;
    let further = FurtherRow::new(back.value, &[-10, 0, -6], &[3, 2])
        .map_err(|back| back.error)
        .context("the further row was not made")?;
    println!(rt;
        "one row more over it: row -10 0 with bound -6, sample 3 2: made, so premium counts for at least six tenths"
    )?;
    ask(rt, &further, &TWO_BY_ONE, &[2])?;
    ask(rt, &further, &TWO_BY_ONE, &[1])?;
    Ok(())
}
