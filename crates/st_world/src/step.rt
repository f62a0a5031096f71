ghost use Rattle.std.specs.Prelude.{◌≡◌, ◌+◌, ◌*◌, ◌≤◌, ◌&&◌, nat_lt, length, OnOk};
ghost use Rattle.st_words.specs.declared.deployment.Deployment.{Deployment};
ghost use Rattle.st_schedule.specs.declared.limits.TheConstants.{MOST_OPERATION};
ghost use Rattle.st_schedule.specs.declared.line.Line.TheVariants as lines;
ghost use Rattle.st_config.specs.Built.{IsBuilt};
ghost use Rattle.st_protocol.specs.Words.{Bytes};
ghost use Rattle.st_protocol.specs.World as model;
ghost use Rattle.st_protocol.specs.Schedule.{step, is_dest};
ghost use Rattle.st_deployment.specs.Deployed.{world_deployment};
ghost use Rattle.st_world.specs.Standing.{IsSet, IsWorld, IsStanding, CameTo, SteppedTo};

use crate::error::{StepError, WorldError, at_line};
use crate::world::World;
use st_fields::{Bytes, Copied};
use st_schedule::{Dest, Done, Line};
use st_words::{ClientId, ServerId};
use std::alloc::Global;

impl World {
    /// An event of the line of this number, and what it came to.
    ///
    /// The world ends where the line names what isn't there (BadReference), where bytes from outside hold a forged
    /// seal (Forged, with the place of the first), and where one message (TooMany), or one byte (TooMuch), too many
    /// would be sent.
    pub fn step(&mut self, alloc: Global, line: u32, event: &Line) -> Result<Done, WorldError>
        requires stands { IsStanding self.old }
        requires built { IsBuilt event.now }
        ensures stepped { (d : Deployment) (m : model.World Bytes) → IsWorld self.old d m → SteppedTo line result self.new d (step (world_deployment d) m event.now) }
        ensures stands { OnOk result (IsStanding self.new) }
    {
        match self.take_event(alloc, event) {
            Ok(done) => Ok(done),
            Err(error) => Err(at_line(line, error)),
        }
    }

    // An event, and what it came to.
    fn take_event(&mut self, alloc: Global, event: &Line) -> Result<Done, StepError>
        requires stands { IsStanding self.old }
        requires built { IsBuilt event.now }
        ensures stepped { (d : Deployment) (m : model.World Bytes) → IsWorld self.old d m → CameTo result self.new d (step (world_deployment d) m event.now) }
        ensures stands { OnOk result (IsStanding self.new) }
    {
        match event {
            Line::Client { client, op } => self.step_client(alloc, *client, op),
            Line::Deliver { message, to } => self.step_deliver(alloc, *message, *to),
            Line::Drop { message, to } => self.step_drop(*message, *to),
            Line::Lose { to } => self.step_lose(*to),
            Line::Flow { pairs } => self.flow(alloc, *pairs),
            Line::Raw { to, bytes } => self.step_raw(alloc, *to, bytes),
            Line::Show { message } => self.step_show(alloc, *message),
            _ => unreachable!(),
        }
    }

    // A client asks for its next update, if there is such a client.
    fn step_client(
        &mut self,
        alloc: Global,
        client: ClientId,
        op: &Bytes,
    ) -> Result<Done, StepError>
        requires stands { IsStanding self.old }
        requires op { length op.now ≤ MOST_OPERATION }
        ensures { (d : Deployment) (m : model.World Bytes) → IsWorld self.old d m → CameTo result self.new d (step (world_deployment d) m (lines.Client client op.now)) }
    {
        if client.0 >= self.deployment.clients {
            return Err(StepError::BadReference);
        }
        self.submit(alloc, client, op)
    }

    // A message is delivered, whether or not it was sent there.
    fn step_deliver(&mut self, alloc: Global, message: u32, to: Dest) -> Result<Done, StepError>
        requires stands { IsStanding self.old }
        ensures { (d : Deployment) (m : model.World Bytes) → IsWorld self.old d m → CameTo result self.new d (step (world_deployment d) m (lines.Deliver message to)) }
    {
        let sent = self.sent.len();
        if message as usize >= sent {
            return Err(StepError::BadReference);
        }
        if !self.is_dest(to) {
            return Err(StepError::BadReference);
        }
        self.waiting.remove(message, to);
        self.deliver(alloc, to, message)
    }

    // An undelivered message is lost.
    fn step_drop(&mut self, message: u32, to: Dest) -> Result<Done, StepError>
        requires stands { IsStanding self.old }
        ensures { (d : Deployment) (m : model.World Bytes) → IsWorld self.old d m → CameTo result self.new d (step (world_deployment d) m (lines.Drop message to)) }
    {
        let gone = self.waiting.remove(message, to);
        if gone == 0 {
            return Err(StepError::BadReference);
        }
        Ok(Done::Dropped(gone))
    }

    // All that is undelivered to a destination is lost.
    fn step_lose(&mut self, to: Dest) -> Result<Done, StepError>
        requires stands { IsStanding self.old }
        ensures { (d : Deployment) (m : model.World Bytes) → IsWorld self.old d m → CameTo result self.new d (step (world_deployment d) m (lines.Lose to)) }
    {
        if !self.is_dest(to) {
            return Err(StepError::BadReference);
        }
        let gone = self.waiting.lose(to);
        Ok(Done::Dropped(gone))
    }

    // Bytes from outside are delivered, unless a seal in them is forged.
    fn step_raw(&mut self, alloc: Global, to: Dest, bytes: &Bytes) -> Result<Done, StepError>
        requires stands { IsStanding self.old }
        ensures { (d : Deployment) (m : model.World Bytes) → IsWorld self.old d m → CameTo result self.new d (step (world_deployment d) m (lines.Raw to bytes.now)) }
    {
        if !self.is_dest(to) {
            return Err(StepError::BadReference);
        }
        let bytes = bytes.as_slice();
        match self.forged(alloc, bytes)? {
            Some(place) => Err(StepError::Forged { place }),
            None => self.deliver_bytes(alloc, to, bytes),
        }
    }

    // The bytes of a message.
    fn step_show(&self, alloc: Global, message: u32) -> Result<Done, StepError>
        requires stands { IsStanding self.now }
        ensures { (d : Deployment) (m : model.World Bytes) → IsWorld self.now d m → CameTo result self.now d (step (world_deployment d) m (lines.Show message)) }
    {
        let Some(bytes) = self.sent.get(message as usize) else {
            return Err(StepError::BadReference);
        };
        let bytes = bytes.copy(alloc)?;
        Ok(Done::Shown(bytes))
    }

    // Whether there is such a destination.
    fn is_dest(&self, to: Dest) -> bool
        ensures { (d : Deployment) → IsSet self.now d → result ≡ is_dest (world_deployment d) to }
    {
        match to {
            Dest::Server(server) => self.has_server(server),
            Dest::Client(client) => self.has_client(client),
        }
    }

    // Whether there is such a server.
    pub(crate) fn has_server(&self, server: ServerId) -> bool
        ensures { result ≡ (nat_lt server.site self.now.deployment.sites && nat_lt server.index (3 * self.now.deployment.f + 1)) }
    {
        server.site < self.deployment.sites
            && u16::from(server.index) < 3 * u16::from(self.deployment.f) + 1
    }

    // Whether there is such a client.
    pub(crate) fn has_client(&self, client: ClientId) -> bool
        ensures { result ≡ nat_lt client.0 self.now.deployment.clients }
    {
        client.0 < self.deployment.clients
    }
}
