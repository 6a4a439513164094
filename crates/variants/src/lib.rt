// The kinds of variant.
#![tactic(auto)]

mod cover_sheet;
mod cover_terms;
mod either_variant;
mod plain_sheet;
#[cfg(test)]
mod tests;

pub use cover_sheet::CoverSheet;
pub use cover_terms::CoverTerms;
pub use either_variant::EitherVariant;
pub use plain_sheet::PlainSheet;

// The sheets that are in use: plain ones and cover sheets, in one list.
pub type Sheet = EitherVariant<PlainSheet, CoverSheet>;
