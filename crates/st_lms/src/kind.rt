ghost use Rattle.std.specs.Prelude.{◌≡◌};
ghost use Rattle.st_lms.specs.Kinds.{lms_number_of, lms_kind_of, height_of, leaves_of, lms_seal_length, made_kind, made_ots};

use st_lmots::OtsKind;

/// A parameter set of LMS over SHA-256 with nodes of 32 bytes, by the height of the tree (RFC 8554,
/// section 5.1).
#[derive(Clone, Copy, Debug, PartialEq, Eq)]
pub enum LmsKind {
    H5,
    H10,
    H15,
    H20,
    H25,
}

impl LmsKind {
    /// The set that a type stands for; None exactly where it stands for none.
    pub fn of(number: u32) -> Option<LmsKind>
        ensures { result ≡ lms_kind_of number }
    {
        match number {
            5 => Some(LmsKind::H5),
            6 => Some(LmsKind::H10),
            7 => Some(LmsKind::H15),
            8 => Some(LmsKind::H20),
            9 => Some(LmsKind::H25),
            _ => None,
        }
    }

    /// The type, as keys and signatures write it.
    pub fn number(self) -> u32
        ensures { result ≡ lms_number_of self }
    {
        match self {
            LmsKind::H5 => 5,
            LmsKind::H10 => 6,
            LmsKind::H15 => 7,
            LmsKind::H20 => 8,
            LmsKind::H25 => 9,
        }
    }

    /// How many nodes a path has.
    pub(crate) fn height(self) -> u8
        ensures { result ≡ height_of self }
    {
        match self {
            LmsKind::H5 => 5,
            LmsKind::H10 => 10,
            LmsKind::H15 => 15,
            LmsKind::H20 => 20,
            LmsKind::H25 => 25,
        }
    }

    /// How many leaves a tree has.
    pub fn leaves(self) -> u32
        ensures { result ≡ leaves_of self }
    {
        match self {
            LmsKind::H5 => 32,
            LmsKind::H10 => 1024,
            LmsKind::H15 => 32_768,
            LmsKind::H20 => 1_048_576,
            LmsKind::H25 => 33_554_432,
        }
    }

    /// The bytes of a signature.
    pub fn seal_length(self, ots: OtsKind) -> usize
        ensures { result ≡ lms_seal_length self ots }
    {
        8 + ots.seal_length() + 32 * usize::from(self.height())
    }
}

/// The set of a type that trees are made of: heights 5 and 10.
pub(crate) fn made_kind(number: u32) -> Option<LmsKind>
    ensures { result ≡ made_kind number }
{
    match number {
        5 => Some(LmsKind::H5),
        6 => Some(LmsKind::H10),
        _ => None,
    }
}

/// The set of a type that leaves are made of: digits of 4 and 8 bits.
pub(crate) fn made_ots(number: u32) -> Option<OtsKind>
    ensures { result ≡ made_ots number }
{
    match number {
        3 => Some(OtsKind::W4),
        4 => Some(OtsKind::W8),
        _ => None,
    }
}
