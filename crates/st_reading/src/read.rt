//! Bytes, as a server or a client of a deployment takes them.

ghost use Rattle.std.specs.Prelude.{◌≡◌, ℕ, ◌≤◌, Bool, List, length, IfOk};
ghost use Rattle.st_hss_seal.specs.Sealing.{holds};
ghost use Rattle.st_protocol.specs.Words.{Bytes};
ghost use Rattle.st_protocol.specs.World as world;
ghost use Rattle.st_wire.specs.Errors.{reading_of};
ghost use Rattle.st_wire.specs.Ranges.{most_bytes, KeepsMessage};
ghost use Rattle.st_wire.specs.Seals.{seals_of};
ghost use Rattle.st_wire.specs.Spelling.{message_spelling};
ghost use Rattle.st_reading.specs.Deployed.{as_reading, wire_deployment};
ghost use Rattle.st_reading.specs.Answered.{IsSpelled, refusal_of, IsRead, IsLookedAt, first_unchecked};

use crate::known::knows;
use crate::seals::first_bad_seal;
use st_message::{Message, Reason, Refused};
use st_seal::Check;
use st_wire::{MessageError, decode};
use st_words::Deployment;
use std::alloc::Global;

/// Why bytes that `decode` refuses are ignored.
fn refusal(error: MessageError) -> Refused
    ensures { result ≡ refusal_of error }
{
    match error {
        MessageError::TooLong { bytes } => Refused::Ignored(Reason::TooLong { bytes }),
        MessageError::Malformed { place } => Refused::Ignored(Reason::Malformed { place }),
        MessageError::WrongDeployment { id } => Refused::Ignored(Reason::WrongDeployment { id }),
        MessageError::OutOfMemory => Refused::OutOfMemory,
    }
}

/// The message that the bytes are, in the deployment with this id.
#[tactic(auto, using(crate::proofs::ReadLaws::spelled_message))]
fn read_message(alloc: Global, id: u64, bytes: &[u8]) -> Result<Message, Refused>
    ensures found { IfOk result (IsSpelled id bytes.now) }
    ensures exact { IsRead result (as_reading (reading_of id bytes.now)) }
{
    match decode(alloc, id, bytes) {
        Ok(message) => Ok(message),
        Err(error) => Err(refusal(error)),
    }
}

/// The message that the bytes are for the deployment, as a client takes them: seals aren't looked at. Ignored
/// as TooLong where there are more than 4,194,304 bytes; else as Malformed where they are no message's; else as
/// WrongDeployment where they are another deployment's; else as Unknown where the deployment doesn't know the
/// message.
#[tactic(auto, unfolding(crate::specs::Deployed::wire_deployment))]
pub fn read_known(alloc: Global, d: &Deployment, bytes: &[u8]) -> Result<Message, Refused>
    ensures found { IfOk result (IsSpelled d.now.id bytes.now) }
    ensures exact { (serve : List Bytes → Bytes → Bytes) (runs_no_code : ℕ → ℕ → Bool) → IsRead result (world.read_known (wire_deployment d.now serve runs_no_code) bytes.now) }
{
    let message = read_message(alloc, d.id, bytes)?;
    if knows(d, &message) {
        Ok(message)
    } else {
        Err(Refused::Ignored(Reason::Unknown))
    }
}

/// Ignored as BadSeal where a seal of the message doesn't check.
fn look_at_seals<C: Check>(
    alloc: Global,
    check: &C,
    d: &Deployment,
    message: &Message,
) -> Result<(), Refused>
    requires sites { 1 ≤ d.now.sites }
    requires keeps { KeepsMessage message.now }
    requires short { length (message_spelling d.now.id message.now) ≤ most_bytes }
    ensures { IsLookedAt result (first_unchecked (C.checks check.now) d.now.id (seals_of d.now.id d.now.sites message.now)) }
{
    match first_bad_seal(alloc, check, d, message) {
        Ok(None) => Ok(()),
        Ok(Some(place)) => Err(Refused::Ignored(Reason::BadSeal { place })),
        Err(_) => Err(Refused::OutOfMemory),
    }
}

/// The message that the bytes are for the deployment, as a server takes them. Ignored for the reasons of
/// `read_known`, in that order; else as BadSeal where a seal doesn't check: the place of the first, in byte
/// order. `check` is that of the deployment's seals, and looks once at each seal up to that one.
#[tactic(auto, using(crate::proofs::CheckedLaws::checked_clean, crate::proofs::CheckedLaws::checked_bad, crate::proofs::CheckedLaws::checked_faulty))]
pub fn read_checked<C: Check>(
    alloc: Global,
    check: &C,
    d: &Deployment,
    bytes: &[u8],
) -> Result<Message, Refused>
    requires check { C.checks check.now ≡ holds d.now }
    requires sites { 1 ≤ d.now.sites }
    ensures found { IfOk result (IsSpelled d.now.id bytes.now) }
    ensures exact { (serve : List Bytes → Bytes → Bytes) (runs_no_code : ℕ → ℕ → Bool) → IsRead result (world.reads (wire_deployment d.now serve runs_no_code) bytes.now) }
{
    let message = read_known(alloc, d, bytes)?;
    look_at_seals(alloc, check, d, &message)?;
    Ok(message)
}
