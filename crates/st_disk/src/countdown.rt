ghost use Rattle.std.specs.Prelude.{◌≡◌, ◌≤◌, IsTrue};

/// How many device calls from now the one is that is set to fail, and how many failed.
#[derive(Clone, Copy, Debug, PartialEq, Eq)]
pub(crate) struct Countdown {
    /// None where no call is set; at least 1.
    pub(crate) left: Option<u32>,
    /// At most 2^64-1.
    pub(crate) faults: u64,
}

impl Countdown {
    ghost use Rattle.st_disk.specs.Countdowns.{called, is_due};
    ghost use Rattle.st_io.specs.Causes.{Rose};

    /// Counts a device call, and answers whether it is the set call.
    pub(crate) fn fails(&mut self) -> bool
        ensures answer { result ≡ is_due 1 self.old.left }
        ensures counted { self.new ≡ called self.old }
        ensures later { self.old.faults ≤ self.new.faults }
        ensures rises { IsTrue result → Rose self.old.faults self.new.faults }
    {
        match self.left {
            None => false,
            Some(k) if k > 1 => {
                self.left = Some(k - 1);
                false
            }
            Some(_) => {
                self.left = None;
                self.faults = self.faults.saturating_add(1);
                true
            }
        }
    }
}
