// A pair of a mixture: the number of a variant, and its share.
#[derive(Clone, Copy, PartialEq, Eq, Debug)]
pub struct Share {
    pub variant: u16,
    pub share: u32,
}
