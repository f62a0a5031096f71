ghost use Rattle.std.specs.Prelude.{◌≡◌, ◌<◌, ◌^◌};

use st_fields::Bytes;

/// A device call that changed the file, or what of it is on the disk.
#[derive(Debug, Drop)]
pub(crate) enum Call {
    Write { at: usize, piece: Bytes },
    Cut { size: usize },
    Sync,
}

impl Call {
    ghost use Rattle.st_disk.specs.Calls.{reach};

    /// How long a file has to be for this call to be made in place.
    pub(crate) fn reach(&self) -> usize
        requires { reach self.now < 2 ^ 64 }
        ensures { result ≡ reach self.now }
    {
        match self {
            Call::Write { at, piece } => *at + piece.len(),
            Call::Cut { size } => *size,
            Call::Sync => 0,
        }
    }
}
