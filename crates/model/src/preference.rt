ghost use Rattle.std.specs.Prelude.{◌≡◌, Decides};
ghost use Rattle.model.specs.Meaning.{Meaning, Lawful};
ghost use Rattle.model.specs.Questions.{weight_question, difference_question, Judges};
ghost use Rattle.model.specs.Refusals.{Checked};
ghost use Rattle.model.specs.Values.{parts_of, entries_of};

use crate::lists::{LIMIT, all_within, is_figure_count};
use crate::{Difference, Judgement, Refusal, Weight};

// A kind of preference: which weighings of the figures are permitted, and which certificates it accepts. No question changes it.
pub trait Preference {
    ghost meaning: { Self → Meaning };

    // How many figures it weighs.
    fn dims(&self) -> usize
        ensures { result ≡ (meaning self.now).dims };

    // How many multipliers a certificate has.
    fn multipliers(&self) -> usize
        ensures { result ≡ (meaning self.now).multipliers };

    // The parts of the sample weight.
    fn sample(&self) -> &[u32]
        ensures { result.now ≡ (meaning self.now).sample };

    fn admits(&self, weight: &Weight) -> bool
        ensures { result ≡ (meaning self.now).admits (parts_of weight.now) };

    fn judge(&self, difference: &Difference, multipliers: &[u32]) -> Judgement
        ensures { result ≡ (meaning self.now).judged (entries_of difference.now) multipliers.now };

    // Whether the weight with these parts is admissible; refused where they are no weight of this preference.
    fn ask_weight(&self, parts: &[u32]) -> Result<bool, Refusal>
        ensures { Checked (weight_question (meaning self.now) parts.now) result (λ said. Decides said ((meaning self.now).admissible parts.now)) }
    {
        if parts.len() != self.dims() {
            return Err(Refusal::Width);
        }
        let weight = Weight::new(parts)?;
        Ok(self.admits(&weight))
    }

    // The judgement of a difference with multipliers; refused where they have not the form of a question to this preference.
    fn ask_difference(&self, difference: &[i64], multipliers: &[u32]) -> Result<Judgement, Refusal>
        ensures { Checked (difference_question (meaning self.now) difference.now multipliers.now) result (Judges (meaning self.now) difference.now multipliers.now) }
    {
        let dims = self.dims();
        if !is_figure_count(dims) || difference.len() != dims {
            return Err(Refusal::Width);
        }
        if multipliers.len() != self.multipliers() {
            return Err(Refusal::ProofLength);
        }
        if !all_within(multipliers, LIMIT) {
            return Err(Refusal::ProofNumber);
        }
        let difference = Difference::new(difference)?;
        Ok(self.judge(&difference, multipliers))
    }

    ghost lawful: { (x : Self) → Lawful (meaning x) };
}
