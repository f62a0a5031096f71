use st_lms::LmsSecret;

/// How many levels of trees a key has.
#[derive(Clone, Copy, Debug, PartialEq, Eq)]
pub enum Levels {
    One,
    Two,
}

/// All that a key is made from: both levels have the types of the first tree. It has no `Debug`, so that
/// no text shows the seed.
#[derive(Clone, Copy, PartialEq, Eq)]
pub struct HssSecret {
    pub levels: Levels,
    pub first: LmsSecret,
}
