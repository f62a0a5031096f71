ghost use Rattle.std.specs.Prelude.{◌≡◌, ◌≤◌, IfOk, IsOkUnless};
ghost use Rattle.st_fields.specs.declared.error.WordsError.TheVariants as words;

use st_fields::{Seq, WordsError};
use std::alloc::Global;

/// Which calls are to fail, and how many were made and failed.
#[derive(Drop)]
pub(crate) struct Plan {
    /// The calls to fail, from 0.
    places: Seq<u32>,
    /// Both counts end at 2^64-1.
    calls: u64,
    pub(crate) faults: u64,
}

impl Plan {
    ghost use Rattle.st_io.specs.Plans.{begun, called, fails_next};

    /// A plan by which the calls at these places fail, counted from 0.
    pub(crate) fn new(alloc: Global, places: &[u32]) -> Result<Plan, WordsError>
        ensures begun { IfOk result (λ plan. plan ≡ begun places.now) }
        ensures memory { IsOkUnless result words.OutOfMemory }
    {
        Ok(Plan {
            places: Seq::from_slice(alloc, places)?,
            calls: 0,
            faults: 0,
        })
    }

    /// Whether the next call is to fail.
    fn fails_next(&self) -> bool
        ensures { result ≡ fails_next self.now }
    {
        let calls = self.calls;
        self.places
            .as_slice()
            .iter()
            .any(|place| u64::from(*place) == calls)
    }

    /// Counts a call, and answers whether it is to fail.
    pub(crate) fn fails(&mut self) -> bool
        ensures answer { result ≡ fails_next self.old }
        ensures counted { self.new ≡ called self.old }
        ensures later { self.old.faults ≤ self.new.faults }
    {
        let fails = self.fails_next();
        self.calls = self.calls.saturating_add(1);
        if fails {
            self.faults = self.faults.saturating_add(1);
        }
        fails
    }
}
