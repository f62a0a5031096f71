//! The seals in a message, looked at one after another.

ghost use Rattle.std.specs.Prelude.{◌≡◌, ◌≤◌, All, length, IfOk, IsOkUnless};
ghost use Rattle.st_fields.specs.declared.error.WordsError.TheVariants as words;
ghost use Rattle.st_words.specs.Ranges.{KeepsStatement};
ghost use Rattle.st_wire.specs.declared.error.MessageError.TheVariants as errors;
ghost use Rattle.st_wire.specs.Ranges.{most_bytes, KeepsMessage};
ghost use Rattle.st_wire.specs.Seals.{seals_of};
ghost use Rattle.st_wire.specs.Spelling.{message_spelling};
ghost use Rattle.st_reading.specs.Answered.{first_unchecked};

use st_fields::WordsError;
use st_message::Message;
use st_seal::Check;
use st_wire::{MessageError, SealIn, seals_in};
use st_words::{Deployment, statement_bytes};
use std::alloc::Global;

/// The place of the first of these seals that doesn't check.
#[tactic(auto, using(crate::proofs::SealLaws::goes_past, crate::proofs::SealLaws::is_found, crate::proofs::SealLaws::none_is_left))]
fn first_unchecked<C: Check>(
    alloc: Global,
    check: &C,
    id: u64,
    seals: &[SealIn],
) -> Result<Option<usize>, WordsError>
    requires { All (λ x. KeepsStatement x.statement) seals.now }
    ensures place { IfOk result (λ place. place ≡ first_unchecked (C.checks check.now) id seals.now) }
    ensures memory { IsOkUnless result words.OutOfMemory }
{
    for sealed in seals {
        let bytes = statement_bytes(alloc, id, &sealed.statement)?;
        if !check.check(sealed.who, bytes.as_slice(), sealed.seal.as_slice()) {
            return Ok(Some(sealed.place));
        }
    }
    Ok(None)
}

/// The place of the first seal of a message, in byte order, that doesn't check: the offset of its bytes in the
/// message's own. None where each checks. The one error is OutOfMemory.
#[tactic(auto, using(crate::proofs::KeptLaws::statements_keep))]
pub fn first_bad_seal<C: Check>(
    alloc: Global,
    check: &C,
    d: &Deployment,
    message: &Message,
) -> Result<Option<usize>, MessageError>
    requires sites { 1 ≤ d.now.sites }
    requires keeps { KeepsMessage message.now }
    requires short { length (message_spelling d.now.id message.now) ≤ most_bytes }
    ensures place { IfOk result (λ place. place ≡ first_unchecked (C.checks check.now) d.now.id (seals_of d.now.id d.now.sites message.now)) }
    ensures memory { IsOkUnless result errors.OutOfMemory }
{
    let seals = seals_in(alloc, d, message)?;
    let place = first_unchecked(alloc, check, d.id, seals.as_slice())?;
    Ok(place)
}
