ghost use Rattle.std.specs.Prelude.{◌≡◌, ◌*◌, ◌≤◌, [], map, length, pos, ◌-ℤ◌, IfOk, List, ℕ, MatchOption, slice_index, unsigned_abs};
ghost use Rattle.model.specs.Claims.{figures_at, difference_at, difference as difference_of};
ghost use Rattle.variants.specs.Sheets.{plain_figures};

use crate::claims::Claim;
use model::Variant;
use std::alloc::{AllocError, Global};
use std::marker::Model;
use variants::PlainSheet;

// A barn's sheets, numbered from 1.
#[derive(Drop)]
pub struct Barn<'a> {
    sheets: &'a [PlainSheet],
}

impl<'a> Model for Barn<'a> {
    ghost Value = { List (List ℕ) };

    ghost view = { λ barn. map plain_figures barn.sheets.now };
}

impl<'a> Barn<'a> {
    pub(crate) fn new(sheets: &'a [PlainSheet]) -> Barn<'a>
        ensures { result ≡ map plain_figures sheets.now }
    {
        Barn { sheets }
    }

    // The sheet with a number.
    fn sheet(&self, number: u16) -> Option<&PlainSheet>
        ensures { MatchOption result (figures_at self.now number ≡ []) (λ sheet. figures_at self.now number ≡ plain_figures sheet.now) }
    {
        self.sheets.get(usize::from(number).checked_sub(1)?)
    }

    // How many figures the sheet with a number has, none where there is no such sheet.
    fn count(&self, number: u16) -> usize
        ensures { result ≡ length (figures_at self.now number) }
    {
        self.sheet(number).map_or(0, |sheet| sheet.count())
    }

    // The figure at a place of the sheet with a number, 0 where there is none.
    fn figure(&self, number: u16, index: usize) -> u32
        ensures value { result ≡ slice_index (figures_at self.now number) index }
        ensures limit { result ≤ 1000000 }
    {
        self.sheet(number).map_or(0, |sheet| sheet.figure(index))
    }

    // One sheet's figure at a place less another's.
    fn less(&self, target: u16, named: u16, index: usize) -> i64
        ensures value { result ≡ pos (slice_index (figures_at self.now target) index) -ℤ pos (slice_index (figures_at self.now named) index) }
        ensures size { unsigned_abs result ≤ 1000000 }
    {
        i64::from(self.figure(target, index)) - i64::from(self.figure(named, index))
    }

    // A claim's difference at a figure: the sum over the pairs of share times (target's figure less the named one's).
    fn entry(&self, claim: Claim<'_>, index: usize) -> i64
        ensures value { result ≡ difference_at self.now claim.entry.target claim.entry.mixture.now index }
        ensures size { unsigned_abs result ≤ 4294967296000000 * 64 }
    {
        let mut sum: i64 = 0;
        for pair in claim.mixture {
            sum += i64::from(pair.share) * self.less(claim.target, pair.variant, index);
        }
        sum
    }

    // A claim's difference, figure by figure.
    pub(crate) fn difference(&self, heap: Global, claim: Claim<'_>) -> Result<Vec<i64>, AllocError>
        ensures { IfOk result (λ entries. entries.items ≡ difference_of self.now claim.entry.target claim.entry.mixture.now) }
    {
        (0..self.count(claim.target))
            .map(|index| self.entry(claim, index))
            .collect(heap)
    }
}
