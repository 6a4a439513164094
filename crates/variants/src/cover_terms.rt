// What a cover sheet states, as it is handed in.
#[derive(Clone, Copy)]
pub struct CoverTerms {
    pub premium: u32,
    pub own_share: u32,
    pub sum_covered: u32,
    pub waiting_days: u32,
    // The exclusion marks: what the cover does not pay for.
    pub exclusions: [bool; 8],
}
