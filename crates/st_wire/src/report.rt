//! Readers of reports and of what backs them.

ghost use Rattle.std.specs.Prelude.{◌≡◌};
ghost use Rattle.st_fields.specs.Reading.{Gives};
ghost use Rattle.st_wire.specs.Ranges.{after_body};
ghost use Rattle.st_wire.specs.Reading.{quorum_at, quorums_at, base_at, body_report_at};

use crate::backed::{base_of, items_of};
use crate::parts::{read_proof, read_quorum, read_seal};
use st_fields::{FieldError, ReadsEach, read_list};
use st_message::{Proof, ReportBody};
use st_seal::{Quorum, Quorums};
use st_words::{ReportBounds, read_report};
use std::alloc::Global;

/// Reads the quorums that back a report's items, each on its own.
#[derive(Clone, Copy, Debug, PartialEq, Eq)]
pub struct Backing {}

impl ReadsEach<Quorum> for Backing {
    ghost reads = { λ _. quorum_at };

    ghost after = { λ backing _. backing };

    fn read<'a>(&self, alloc: Global, bytes: &'a [u8]) -> Result<(Quorum, &'a [u8]), FieldError> {
        read_quorum(alloc, bytes)
    }

    fn go_past(self, _element: &Quorum) -> Backing {
        self
    }
}

#[tactic(auto, unfolding(crate::specs::Reading::quorums_at))]
fn read_quorums(alloc: Global, count: usize, bytes: &[u8]) -> Result<(Quorums, &[u8]), FieldError>
    ensures { Gives (λ x. (x.0, x.1.now)) result (quorums_at count bytes.now) }
{
    read_list(alloc, count, Backing {}, bytes)
}

#[tactic(auto, unfolding(crate::specs::Reading::base_at))]
fn read_base(alloc: Global, base: u32, bytes: &[u8]) -> Result<(Option<Proof>, &[u8]), FieldError>
    ensures { Gives (λ x. (x.0, x.1.now)) result (base_at base bytes.now) }
{
    if base == 0 {
        return Ok((None, bytes));
    }
    let (proof, rest) = read_proof(alloc, bytes)?;
    Ok((Some(proof), rest))
}

/// Which report may stand next in a bundle.
#[derive(Clone, Copy, Debug, PartialEq, Eq)]
pub struct Bundled {
    pub bounds: ReportBounds,
}

/// A report within the bounds, with what backs it.
#[tactic(auto, unfolding(crate::specs::Reading::body_report_at))]
pub fn read_body_report(
    alloc: Global,
    bundled: Bundled,
    bytes: &[u8],
) -> Result<(ReportBody, &[u8]), FieldError>
    ensures { Gives (λ x. (x.0, x.1.now)) result (body_report_at bundled bytes.now) }
{
    let (statement, rest) = read_report(alloc, &bundled.bounds, bytes)?;
    let (seal, rest) = read_seal(alloc, rest)?;
    let (quorums, rest) = read_quorums(alloc, items_of(&statement).len(), rest)?;
    let (base, rest) = read_base(alloc, base_of(&statement), rest)?;
    let report = ReportBody {
        statement,
        seal,
        quorums,
        base,
    };
    Ok((report, rest))
}

impl ReadsEach<ReportBody> for Bundled {
    ghost reads = { body_report_at };

    ghost after = { after_body };

    fn read<'a>(
        &self,
        alloc: Global,
        bytes: &'a [u8],
    ) -> Result<(ReportBody, &'a [u8]), FieldError> {
        read_body_report(alloc, *self, bytes)
    }

    fn go_past(self, element: &ReportBody) -> Bundled {
        Bundled {
            bounds: self.bounds.after(&element.statement),
        }
    }
}

impl Bundled {
    ghost use Rattle.st_wire.specs.Ranges.{any_body};

    /// Any report.
    pub fn any() -> Bundled
        ensures { result ≡ any_body }
    {
        Bundled {
            bounds: ReportBounds::any(),
        }
    }
}
