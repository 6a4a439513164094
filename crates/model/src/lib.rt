// Definitions and interfaces: scores, differences, the grounds of refusal, and what a preference and a variant are.
#![tactic(auto)]

mod difference;
mod figures;
mod handed_back;
mod judgement;
mod list_answer;
mod lists;
mod magnitude;
mod make_error;
mod per_figure;
mod preference;
mod refusal;
mod scoring;
mod share;
mod top_answer;
mod variant;
mod weight;

pub use difference::Difference;
pub use figures::Figures;
pub use handed_back::HandedBack;
pub use judgement::Judgement;
pub use list_answer::ListAnswer;
pub use lists::{all_within, is_figure_count, padded};
pub use magnitude::Magnitude;
pub use make_error::MakeError;
pub use per_figure::PerFigure;
pub use preference::Preference;
pub use refusal::Refusal;
pub use scoring::score;
pub use share::Share;
pub use top_answer::TopAnswer;
pub use variant::Variant;
pub use weight::Weight;
