ghost use Rattle.std.specs.Prelude.{◌≡◌, ◌≢◌, ℕ, nat_eq, IfOk, OnOk, IsOkUnless};
ghost use Rattle.st_words.specs.declared.deployment.Deployment.{Deployment};
ghost use Rattle.st_protocol.specs.Words.{Bytes};
ghost use Rattle.st_protocol.specs.Duty.{Clean};
ghost use Rattle.st_protocol.specs.World as model;
ghost use Rattle.st_protocol.specs.World.{bad_seal, with_customer, client_takes};
ghost use Rattle.st_client.specs.Customers.{customer_of};
ghost use Rattle.st_client.specs.Replying.{reply_customer, reply_outcome};
ghost use Rattle.st_deployment.specs.Deployed.{world_deployment};
ghost use Rattle.st_world.specs.declared.error.StepError.TheVariants as steps;
ghost use Rattle.st_world.specs.Customers.{customer_in};
ghost use Rattle.st_world.specs.Serving.{IsFound};
ghost use Rattle.st_world.specs.Standing.{IsSet, IsWorld, IsStanding, CameTo};

use crate::error::StepError;
use crate::world::World;
use st_client::Client;
use st_fields::{Bytes, Shared};
use st_message::{Message, Outcome, Reason};
use st_reading::first_bad_seal;
use st_schedule::Done;
use st_words::{ClientId, Number, ServerId, Statement};
use std::alloc::Global;

impl World {
    // The client of a number, to change.
    pub(crate) fn customer(&self, alloc: Global, client: ClientId) -> Result<Client, StepError>
        ensures equal { IfOk result (λ customer. customer_of customer ≡ customer_in self.now.customers client.0) }
        ensures memory { IsOkUnless result steps.OutOfMemory }
    {
        match self.customers.get(client.0 as usize) {
            Some(customer) => {
                let copy = customer.copy(alloc)?;
                Ok(copy)
            }
            None => Ok(Client::new()),
        }
    }

    // Puts a client in its place.
    pub(crate) fn put_customer(
        &mut self,
        alloc: Global,
        client: ClientId,
        customer: Client,
    ) -> Result<(), StepError>
        ensures put { OnOk result ((d : Deployment) (m : model.World Bytes) → IsWorld self.old d m → IsWorld self.new d (with_customer m client.0 (customer_of customer))) }
        ensures memory { IsOkUnless result steps.OutOfMemory }
    {
        let customer = Shared::new(alloc, customer)?;
        self.customers.put(client.0 as usize, Some(customer))?;
        Ok(())
    }

    /// Delivers to a client a message that it read of bytes: it takes a Reply of its own whose seal checks.
    pub(crate) fn answer(
        &mut self,
        alloc: Global,
        client: ClientId,
        message: &Message,
    ) -> Result<Done, StepError>
        requires stands { IsStanding self.old }
        requires found { IsFound self.old.deployment.id message.now }
        ensures { (d : Deployment) (m : model.World Bytes) → IsWorld self.old d m → CameTo result self.new d (client_takes (world_deployment d) m client.0 (Clean message.now)) }
    {
        let Message::Reply { statement, signed } = message else {
            return Ok(Done::Outcome(Outcome::Ignored(Reason::NotMine)));
        };
        let Statement::Reply {
            site,
            client: to,
            time,
            number,
            result: replied,
        } = statement
        else {
            return Ok(Done::Outcome(Outcome::Ignored(Reason::NotMine)));
        };
        if !is_own(client, *to) {
            return Ok(Done::Outcome(Outcome::Ignored(Reason::NotMine)));
        }
        match self.bad_seal(alloc, message)? {
            Some(place) => Ok(Done::Outcome(Outcome::Ignored(Reason::BadSeal { place }))),
            None => {
                let server = ServerId {
                    site: site.0,
                    index: signed.index,
                };
                let outcome = self.take_reply(alloc, client, server, *time, *number, replied)?;
                Ok(Done::Outcome(outcome))
            }
        }
    }

    // The place of the first seal of a message that doesn't check.
    fn bad_seal(&self, alloc: Global, message: &Message) -> Result<Option<usize>, StepError>
        requires stands { IsStanding self.now }
        requires found { IsFound self.now.deployment.id message.now }
        ensures place { IfOk result (λ place. (d : Deployment) → IsSet self.now d → place ≡ bad_seal (world_deployment d) message.now) }
        ensures memory { IsOkUnless result steps.OutOfMemory }
    {
        match first_bad_seal(alloc, &self.seals, &self.deployment, message) {
            Ok(place) => Ok(place),
            Err(_) => Err(StepError::OutOfMemory),
        }
    }

    // Takes a server's Reply to a client's update of a time.
    fn take_reply(
        &mut self,
        alloc: Global,
        client: ClientId,
        server: ServerId,
        time: u32,
        number: Number,
        replied: &Bytes,
    ) -> Result<Outcome, StepError>
        ensures taken { OnOk result ((d : Deployment) (m : model.World Bytes) → IsWorld self.old d m → IsWorld self.new d (with_customer m client.0 (reply_customer 0 (m.customers client.0) server.site server.index time (record { number = number.0; result = replied.now })))) }
        ensures outcome { IfOk result (λ outcome. (d : Deployment) (m : model.World Bytes) → IsWorld self.old d m → outcome ≡ reply_outcome (m.customers client.0) server.site server.index time) }
        ensures memory { IsOkUnless result steps.OutOfMemory }
    {
        let mut customer = self.customer(alloc, client)?;
        let outcome = customer.take_reply(alloc, 0, server, time, number, replied)?;
        self.put_customer(alloc, client, customer)?;
        Ok(outcome)
    }
}

// Whether two numbers are of one client.
fn is_own(client: ClientId, to: ClientId) -> bool
    ensures { result ≡ nat_eq client.0 to.0 }
{
    client.0 == to.0
}
