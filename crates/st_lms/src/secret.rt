use crate::kind::LmsKind;
use st_lmots::OtsKind;

/// All that a tree is made from (RFC 8554, section 5.2, with the secrets of its appendix A). It has no
/// `Debug`, so that no text shows the seed.
#[derive(Clone, Copy, PartialEq, Eq)]
pub struct LmsSecret {
    pub kind: LmsKind,
    pub ots: OtsKind,
    /// The identifier of the tree.
    pub i: [u8; 16],
    /// What the leaves' secrets are made from.
    pub seed: [u8; 32],
}
