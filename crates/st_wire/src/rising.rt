//! What may stand next in a list by rising indices or sites.

ghost use Rattle.std.specs.Prelude.{◌≡◌, ◌+◌};

/// The next index, or site, is at least this; 256 where none is left.
#[derive(Clone, Copy, Debug, PartialEq, Eq)]
pub struct Rising {
    pub least: u16,
}

impl Rising {
    ghost use Rattle.st_wire.specs.Ranges.{first};

    /// Nothing stands before.
    pub fn first() -> Rising
        ensures { result ≡ first }
    {
        Rising { least: 0 }
    }

    /// What stands behind this index or site.
    pub fn above(last: u8) -> Rising
        ensures { result ≡ record { least = last + 1 } }
    {
        Rising {
            least: u16::from(last) + 1,
        }
    }
}
