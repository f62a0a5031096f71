//! Readers of the parts of messages: seals, quorums, sites' words, order proofs.

ghost use Rattle.std.specs.Prelude.{◌≡◌, ◌≤◌, IfOk};
ghost use Rattle.st_fields.specs.Reading.{Gives, list_at};
ghost use Rattle.st_wire.specs.Ranges.{first, after_signed, after_site};
ghost use Rattle.st_wire.specs.Reading.{seal_at, signed_at, quorum_at, site_at, sites_at, proof_at};

use crate::limits::MOST_SEAL;
use crate::rising::Rising;
use st_fields::{Bytes, FieldError, ReadsEach, read_byte_in, read_counted, read_text, read_u32};
use st_message::{Proof, SiteWord, SiteWords};
use st_seal::{Quorum, Signed};
use st_words::{SiteId, View, read_value};
use std::alloc::Global;

#[tactic(auto, unfolding(crate::specs::Reading::seal_at))]
pub fn read_seal(alloc: Global, bytes: &[u8]) -> Result<(Bytes, &[u8]), FieldError>
    ensures { Gives (λ x. (x.0, x.1.now)) result (seal_at bytes.now) }
{
    read_text(alloc, bytes, 1, MOST_SEAL)
}

/// A server's seal, whose index is at least `least`.
#[tactic(auto, unfolding(crate::specs::Reading::signed_at))]
pub fn read_signed(
    alloc: Global,
    least: Rising,
    bytes: &[u8],
) -> Result<(Signed, &[u8]), FieldError>
    ensures gives { Gives (λ x. (x.0, x.1.now)) result (signed_at least bytes.now) }
    ensures within { IfOk result (λ x. least.least ≤ x.0.index) }
{
    let (index, rest) = read_byte_in(bytes, least.least, u8::MAX)?;
    let (seal, rest) = read_seal(alloc, rest)?;
    Ok((Signed { index, seal }, rest))
}

fn read_shares(alloc: Global, count: usize, bytes: &[u8]) -> Result<(Quorum, &[u8]), FieldError>
    ensures { Gives (λ x. (x.0, x.1.now)) result (list_at signed_at after_signed count first bytes.now) }
{
    let mut quorum = Quorum::new(alloc);
    let mut least = Rising::first();
    let mut rest = bytes;
    for _ in 0..count {
        let (signed, after) = read_signed(alloc, least, rest)?;
        least = Rising::above(signed.index);
        if quorum.push(signed).is_err() {
            return Err(FieldError::OutOfMemory);
        }
        rest = after;
    }
    Ok((quorum, rest))
}

/// At least one seal behind their number, by rising index.
#[tactic(auto, unfolding(crate::specs::Reading::quorum_at, st_fields::specs::Reading::counted_at))]
pub fn read_quorum(alloc: Global, bytes: &[u8]) -> Result<(Quorum, &[u8]), FieldError>
    ensures { Gives (λ x. (x.0, x.1.now)) result (quorum_at bytes.now) }
{
    let (count, rest) = read_byte_in(bytes, 1, u8::MAX)?;
    read_shares(alloc, usize::from(count), rest)
}

#[tactic(auto, unfolding(crate::specs::Reading::site_at))]
fn read_site(alloc: Global, least: Rising, bytes: &[u8]) -> Result<(SiteWord, &[u8]), FieldError>
    ensures { Gives (λ x. (x.0, x.1.now)) result (site_at least bytes.now) }
{
    let (site, rest) = read_byte_in(bytes, least.least, u8::MAX)?;
    let (quorum, rest) = read_quorum(alloc, rest)?;
    let site = SiteId(site);
    Ok((SiteWord { site, quorum }, rest))
}

impl ReadsEach<SiteWord> for Rising {
    ghost reads = { site_at };

    ghost after = { after_site };

    fn read<'a>(&self, alloc: Global, bytes: &'a [u8]) -> Result<(SiteWord, &'a [u8]), FieldError> {
        read_site(alloc, *self, bytes)
    }

    fn go_past(self, element: &SiteWord) -> Rising {
        Rising::above(element.site.0)
    }
}

/// The words of at least one site behind their number, by rising site.
#[tactic(auto, unfolding(crate::specs::Reading::sites_at))]
pub fn read_sites(alloc: Global, bytes: &[u8]) -> Result<(SiteWords, &[u8]), FieldError>
    ensures { Gives (λ x. (x.0, x.1.now)) result (sites_at bytes.now) }
{
    read_counted(alloc, 1, u8::MAX, Rising::first(), bytes)
}

/// An order proof.
#[tactic(auto, unfolding(crate::specs::Reading::proof_at))]
pub fn read_proof(alloc: Global, bytes: &[u8]) -> Result<(Proof, &[u8]), FieldError>
    ensures { Gives (λ x. (x.0, x.1.now)) result (proof_at bytes.now) }
{
    let (view, rest) = read_u32(bytes)?;
    let (value, rest) = read_value(alloc, rest)?;
    let (sites, rest) = read_sites(alloc, rest)?;
    let view = View(view);
    Ok((Proof { view, value, sites }, rest))
}
