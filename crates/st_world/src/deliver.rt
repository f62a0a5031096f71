ghost use Rattle.std.specs.Prelude.{◌≡◌, ◌<◌, Some, length, slice_get, nat_eq, ◌&&◌, IfOk};
ghost use Rattle.st_words.specs.declared.deployment.Deployment.{Deployment};
ghost use Rattle.st_protocol.specs.Words.{Bytes};
ghost use Rattle.st_protocol.specs.Duty.{Deliver};
ghost use Rattle.st_protocol.specs.World as model;
ghost use Rattle.st_protocol.specs.World.{client_takes, delivers, read_known, reads, serves};
ghost use Rattle.st_reading.specs.Answered.{IsRead};
ghost use Rattle.st_deployment.specs.Deployed.{world_deployment};
ghost use Rattle.st_world.specs.Standing.{IsSet, IsWorld, IsStanding, CameTo};
ghost use Rattle.st_world.specs.Serving.{IsFound, read_for, refusal};

use crate::error::StepError;
use crate::world::World;
use st_message::{Message, Outcome, Refused};
use st_reading::{read_checked, read_known};
use st_schedule::{Dest, Done};
use st_words::{ClientId, ServerId};
use std::alloc::Global;

impl World {
    /// Delivers the message of a number, which was sent.
    #[tactic(auto, using(crate::proofs::DeliverLaws::never_missing))]
    pub(crate) fn deliver(
        &mut self,
        alloc: Global,
        to: Dest,
        message: u32,
    ) -> Result<Done, StepError>
        requires stands { IsStanding self.old }
        requires sent { message < length self.old.sent }
        ensures { (d : Deployment) (m : model.World Bytes) (wire : Bytes) → IsWorld self.old d m → slice_get m.sent message ≡ Some wire → CameTo result self.new d (delivers (world_deployment d) m to wire) }
    {
        let Some(bytes) = self.sent.get(message as usize) else {
            unreachable!();
        };
        let read = self.read_for(alloc, to, bytes.as_slice());
        self.take(alloc, to, &read)
    }

    /// Delivers bytes from outside.
    pub(crate) fn deliver_bytes(
        &mut self,
        alloc: Global,
        to: Dest,
        bytes: &[u8],
    ) -> Result<Done, StepError>
        requires stands { IsStanding self.old }
        ensures { (d : Deployment) (m : model.World Bytes) → IsWorld self.old d m → CameTo result self.new d (delivers (world_deployment d) m to bytes.now) }
    {
        let read = self.read_for(alloc, to, bytes);
        self.take(alloc, to, &read)
    }

    // Bytes as the destination reads them: a client looks at seals later.
    fn read_for(&self, alloc: Global, to: Dest, bytes: &[u8]) -> Result<Message, Refused>
        requires stands { IsStanding self.now }
        ensures found { IfOk result (IsFound self.now.deployment.id) }
        ensures exact { (d : Deployment) → IsSet self.now d → IsRead result (read_for (world_deployment d) to bytes.now) }
    {
        match to {
            Dest::Server(_) => read_checked(alloc, &self.seals, &self.deployment, bytes),
            Dest::Client(_) => read_known(alloc, &self.deployment, bytes),
        }
    }

    // A destination takes what it read.
    fn take(
        &mut self,
        alloc: Global,
        to: Dest,
        read: &Result<Message, Refused>,
    ) -> Result<Done, StepError>
        requires stands { IsStanding self.old }
        requires found { IfOk read.now (IsFound self.old.deployment.id) }
        ensures { (d : Deployment) (m : model.World Bytes) (wire : Bytes) → IsWorld self.old d m → IsRead read.now (read_for (world_deployment d) to wire) → CameTo result self.new d (delivers (world_deployment d) m to wire) }
    {
        match to {
            Dest::Server(server) => self.take_at_server(alloc, server, read),
            Dest::Client(client) => self.take_at_client(alloc, client, read),
        }
    }

    // A server that the deployment doesn't have takes nothing.
    fn take_at_server(
        &mut self,
        alloc: Global,
        server: ServerId,
        read: &Result<Message, Refused>,
    ) -> Result<Done, StepError>
        requires stands { IsStanding self.old }
        requires found { IfOk read.now (IsFound self.old.deployment.id) }
        ensures { (d : Deployment) (m : model.World Bytes) (wire : Bytes) → IsWorld self.old d m → IsRead read.now (reads (world_deployment d) wire) → CameTo result self.new d (serves (world_deployment d) m server.site server.index (Deliver wire)) }
    {
        if !is_served(server) {
            return Ok(Done::Faulty);
        }
        match read {
            Ok(message) => self.serve(alloc, message),
            Err(refused) => refusal(refused),
        }
    }

    fn take_at_client(
        &mut self,
        alloc: Global,
        client: ClientId,
        read: &Result<Message, Refused>,
    ) -> Result<Done, StepError>
        requires stands { IsStanding self.old }
        requires found { IfOk read.now (IsFound self.old.deployment.id) }
        ensures { (d : Deployment) (m : model.World Bytes) (wire : Bytes) → IsWorld self.old d m → IsRead read.now (read_known (world_deployment d) wire) → CameTo result self.new d (client_takes (world_deployment d) m client.0 (read_known (world_deployment d) wire)) }
    {
        match read {
            Ok(message) => self.answer(alloc, client, message),
            Err(refused) => refusal(refused),
        }
    }
}

// What bytes that are refused come to.
fn refusal(refused: &Refused) -> Result<Done, StepError>
    ensures { result ≡ refusal refused.now }
{
    match refused {
        Refused::Ignored(reason) => Ok(Done::Outcome(Outcome::Ignored(*reason))),
        Refused::OutOfMemory => Err(StepError::OutOfMemory),
    }
}

/// Whether it is the one server that there is.
pub(crate) fn is_served(server: ServerId) -> bool
    ensures { result ≡ (nat_eq server.site 0 && nat_eq server.index 0) }
{
    server.site == 0 && server.index == 0
}
