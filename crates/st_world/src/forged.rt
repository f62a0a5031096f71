//! Seals that correct parties never made, in bytes from outside.

ghost use Rattle.std.specs.Prelude.{◌≡◌, not, All, IfOk, IsOkUnless};
ghost use Rattle.std.specs.Option.{option_map};
ghost use Rattle.st_words.specs.declared.deployment.Deployment.{Deployment};
ghost use Rattle.st_words.specs.Ranges.{KeepsStatement};
ghost use Rattle.st_protocol.specs.Words.{Bytes};
ghost use Rattle.st_protocol.specs.World as model;
ghost use Rattle.st_protocol.specs.World.{Forged, first_bad};
ghost use Rattle.st_protocol.specs.Schedule.{forged_by, is_correct_who, is_honest};
ghost use Rattle.st_reading.specs.Deployed.{seal_in};
ghost use Rattle.st_deployment.specs.Deployed.{world_deployment};
ghost use Rattle.st_world.specs.declared.error.StepError.TheVariants as steps;
ghost use Rattle.st_world.specs.Standing.{IsSet, IsWorld, IsStanding};
ghost use Rattle.st_world.specs.Serving.{IsFound};
ghost use Rattle.st_world.specs.Honest.{first_forged, unread};

use crate::error::StepError;
use crate::world::World;
use st_message::Message;
use st_seal::Check;
use st_wire::{MessageError, SealIn, decode, seals_in};
use st_words::{Who, statement_bytes};
use std::alloc::Global;

impl World {
    /// The place of the first forged seal in bytes: one that checks, named as a correct party's, over a statement
    /// which that party hasn't made. None where there is none, or the bytes are no message of the deployment.
    pub(crate) fn forged(&self, alloc: Global, bytes: &[u8]) -> Result<Option<usize>, StepError>
        requires stands { IsStanding self.now }
        ensures place { IfOk result (λ place. (d : Deployment) (m : model.World Bytes) → IsWorld self.now d m → option_map Forged place ≡ forged_by (world_deployment d) m ((world_deployment d).formats.read bytes.now)) }
        ensures memory { IsOkUnless result steps.OutOfMemory }
    {
        match decode(alloc, self.deployment.id, bytes) {
            Ok(message) => self.forged_in(alloc, &message),
            Err(error) => unread(error),
        }
    }

    // The place of the first in a message.
    fn forged_in(&self, alloc: Global, message: &Message) -> Result<Option<usize>, StepError>
        requires stands { IsStanding self.now }
        requires found { IsFound self.now.deployment.id message.now }
        ensures place { IfOk result (λ place. (d : Deployment) (m : model.World Bytes) → IsWorld self.now d m → place ≡ first_bad (is_honest (world_deployment d) m) ((world_deployment d).formats.seals_in message.now)) }
        ensures memory { IsOkUnless result steps.OutOfMemory }
    {
        let Ok(seals) = seals_in(alloc, &self.deployment, message) else {
            return Err(StepError::OutOfMemory);
        };
        self.first_forged(alloc, seals.as_slice())
    }

    // The place of the first of these seals that is forged.
    fn first_forged(&self, alloc: Global, seals: &[SealIn]) -> Result<Option<usize>, StepError>
        requires stands { IsStanding self.now }
        requires kept { All (λ x. KeepsStatement x.statement) seals.now }
        ensures place { IfOk result (λ place. (d : Deployment) (m : model.World Bytes) → IsWorld self.now d m → place ≡ first_forged d m seals.now) }
        ensures memory { IsOkUnless result steps.OutOfMemory }
    {
        for sealed in seals {
            let forged = self.is_forged(alloc, sealed)?;
            if forged {
                return Ok(Some(sealed.place));
            }
        }
        Ok(None)
    }

    // Whether a seal checks for a correct party that never made it.
    fn is_forged(&self, alloc: Global, sealed: &SealIn) -> Result<bool, StepError>
        requires stands { IsStanding self.now }
        requires kept { KeepsStatement sealed.now.statement }
        ensures forged { IfOk result (λ forged. (d : Deployment) (m : model.World Bytes) → IsWorld self.now d m → not forged ≡ is_honest (world_deployment d) m (seal_in sealed.now)) }
        ensures memory { IsOkUnless result steps.OutOfMemory }
    {
        if !self.is_correct(sealed.who) {
            return Ok(false);
        }
        let bytes = statement_bytes(alloc, self.deployment.id, &sealed.statement)?;
        if !self
            .seals
            .check(sealed.who, bytes.as_slice(), sealed.seal.as_slice())
        {
            return Ok(false);
        }
        let made = self.made.has(alloc, sealed.who, &sealed.statement)?;
        Ok(!made)
    }

    // Whether there is such a party: none is faulty.
    fn is_correct(&self, who: Who) -> bool
        ensures { (d : Deployment) → IsSet self.now d → result ≡ is_correct_who (world_deployment d) who }
    {
        match who {
            Who::Server(server) => self.has_server(server),
            Who::Client(client) => self.has_client(client),
        }
    }
}

// Nothing is forged in bytes that are no message.
fn unread(error: MessageError) -> Result<Option<usize>, StepError>
    ensures { result ≡ unread error }
{
    match error {
        MessageError::OutOfMemory => Err(StepError::OutOfMemory),
        _ => Ok(None),
    }
}
