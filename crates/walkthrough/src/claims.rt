ghost use Rattle.std.specs.Prelude.{◌≤◌, length, IfOk};
ghost use Rattle.walkthrough.specs.Findings.{Found};

use crate::barn::Barn;
use model::{Judgement, Preference, Refusal, Share};
use std::alloc::{AllocError, Global};

// A solver's claim: under every admissible weight the target scores at least what the mixture scores. The mixture has at most 64 pairs, so that its sums fit in 64 bits.
#[derive(Clone, Copy)]
pub struct Claim<'a> {
    pub target: u16,
    pub mixture: &'a [Share],
    pub multipliers: &'a [u32],
    ghost short: { length mixture.now ≤ 64 },
}

// A claim's difference, and what the preference says of it.
#[derive(Drop)]
pub struct Finding {
    pub difference: Vec<i64>,
    pub judgement: Result<Judgement, Refusal>,
}

// Computes a claim's difference and asks the preference about it.
pub(crate) fn check<P: Preference>(
    heap: Global,
    preference: &P,
    barn: &Barn<'_>,
    claim: Claim<'_>,
) -> Result<Finding, AllocError>
    ensures { IfOk result (Found (P.Preference.meaning preference.now) barn.now claim.entry.target claim.entry.mixture.now claim.entry.multipliers.now) }
{
    let difference = barn.difference(heap, claim)?;
    let judgement = preference.ask_difference(difference.as_slice(), claim.multipliers);
    Ok(Finding {
        difference,
        judgement,
    })
}
