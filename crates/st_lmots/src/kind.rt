ghost use Rattle.std.specs.Prelude.{◌≡◌, ◌/◌};
ghost use Rattle.st_lmots.specs.Kinds.{number_of, kind_of, width_of, chains_of, shift_of, top_of, seal_length};

/// A parameter set of LM-OTS over SHA-256 with digests of 32 bytes, by the bits of a digit (RFC 8554,
/// section 4.1).
#[derive(Clone, Copy, Debug, PartialEq, Eq)]
pub enum OtsKind {
    W1,
    W2,
    W4,
    W8,
}

impl OtsKind {
    /// The set that a type stands for; None exactly where it stands for none.
    pub fn of(number: u32) -> Option<OtsKind>
        ensures { result ≡ kind_of number }
    {
        match number {
            1 => Some(OtsKind::W1),
            2 => Some(OtsKind::W2),
            3 => Some(OtsKind::W4),
            4 => Some(OtsKind::W8),
            _ => None,
        }
    }

    /// The type, as keys and signatures write it.
    pub fn number(self) -> u32
        ensures { result ≡ number_of self }
    {
        match self {
            OtsKind::W1 => 1,
            OtsKind::W2 => 2,
            OtsKind::W4 => 3,
            OtsKind::W8 => 4,
        }
    }

    /// The bits of a digit.
    pub(crate) fn width(self) -> u8
        ensures { result ≡ width_of self }
    {
        match self {
            OtsKind::W1 => 1,
            OtsKind::W2 => 2,
            OtsKind::W4 => 4,
            OtsKind::W8 => 8,
        }
    }

    /// How many chains there are.
    pub(crate) fn chains(self) -> u16
        ensures { result ≡ chains_of self }
    {
        match self {
            OtsKind::W1 => 265,
            OtsKind::W2 => 133,
            OtsKind::W4 => 67,
            OtsKind::W8 => 34,
        }
    }

    /// How far the checksum is shifted to the left.
    pub(crate) fn shift(self) -> u8
        ensures { result ≡ shift_of self }
    {
        match self {
            OtsKind::W1 => 7,
            OtsKind::W2 => 6,
            OtsKind::W4 => 4,
            OtsKind::W8 => 0,
        }
    }

    /// The greatest digit, which is how many steps a chain has.
    pub(crate) fn top(self) -> u8
        ensures { result ≡ top_of self }
    {
        match self {
            OtsKind::W1 => 1,
            OtsKind::W2 => 3,
            OtsKind::W4 => 15,
            OtsKind::W8 => 255,
        }
    }

    /// The bytes of a signature.
    pub fn seal_length(self) -> usize
        ensures { result ≡ seal_length self }
    {
        36 + 32 * usize::from(self.chains())
    }
}
