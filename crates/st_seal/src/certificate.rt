ghost use Rattle.std.specs.Prelude.{◌≡◌, ◌+◌, ◌*◌, ◌&&◌, nat_lt};
ghost use Rattle.std.specs.List.{list_all};
ghost use Rattle.st_seal.specs.Certificates.{is_certificate, signed_checks};

use crate::quorum::{Quorum, Signed};
use crate::sealer::Check;
use st_words::{ServerId, SiteId, Who};

/// Whether the quorum is a certificate of the site for these bytes: seals of exactly 2f+1 distinct
/// servers of its 3f+1, each of which checks. Takes no memory.
#[tactic(auto, using(crate::proofs::RisingLaws::rising_passes))]
pub fn quorum_holds<C: Check>(check: &C, f: u8, site: SiteId, bytes: &[u8], quorum: &Quorum) -> bool
    ensures { result ≡ is_certificate (C.checks check.now) f site bytes.now quorum.now }
{
    if quorum.len() != 2 * usize::from(f) + 1 {
        return false;
    }
    all_check(check, f, site, bytes, quorum.as_slice())
}

/// Whether each seal is one of a server of the site's 3f+1 over the bytes.
fn all_check<C: Check>(check: &C, f: u8, site: SiteId, bytes: &[u8], seals: &[Signed]) -> bool
    ensures { result ≡ list_all (λ s. nat_lt s.index (3 * f + 1) && signed_checks (C.checks check.now) site bytes.now s) seals.now }
{
    let servers = 3 * u16::from(f) + 1;
    seals.iter().all(|s| u16::from(s.index) < servers && signed_checks(check, site, bytes, s))
}

/// Whether the seal is one of the server of its index over the bytes.
pub(crate) fn signed_checks<C: Check>(
    check: &C,
    site: SiteId,
    bytes: &[u8],
    signed: &Signed,
) -> bool
    ensures { result ≡ signed_checks (C.checks check.now) site bytes.now signed.now }
{
    let server = ServerId {
        site: site.0,
        index: signed.index,
    };
    check.check(Who::Server(server), bytes, signed.seal.as_slice())
}
