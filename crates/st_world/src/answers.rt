ghost use Rattle.std.specs.Prelude.{◌≡◌, slice_get, length};
ghost use Rattle.std.specs.Option.{option_copied, option_map};
ghost use Rattle.st_words.specs.declared.deployment.Deployment.{Deployment};
ghost use Rattle.st_protocol.specs.Words.{Bytes, a_server};
ghost use Rattle.st_protocol.specs.World as model;
ghost use Rattle.st_protocol.specs.Report.{result_of};
ghost use Rattle.st_client.specs.Customers.{customer_of};
ghost use Rattle.st_deployment.specs.Deployed.{world_deployment};
ghost use Rattle.st_world.specs.Standing.{IsWorld, IsStanding};
ghost use Rattle.st_world.specs.Answers.{IsServer, IsServerHere, client_in, client_seen, entries_of, result_seen};

use crate::deliver::is_served;
use crate::world::{ServerState, World};
use st_client::Client;
use st_message::{Entry, MadeSeal};
use st_server::Server;
use st_words::{ClientId, Number, ServerId};

// What a world answers: each call for every world of the definitions for which it stands, and without memory.
impl World {
    /// The seals that correct parties handed out, each once, where it was first handed out.
    pub fn made(&self) -> &[MadeSeal]
        ensures { (d : Deployment) (m : model.World Bytes) → IsWorld self.now d m → result.now ≡ m.made }
    {
        self.made.as_slice()
    }

    /// The bytes of the message of this number; None exactly for a number that wasn't given.
    pub fn sent(&self, message: u32) -> Option<&[u8]>
        ensures { (d : Deployment) (m : model.World Bytes) → IsWorld self.now d m → option_copied result ≡ slice_get m.sent message }
    {
        match self.sent.get(message as usize) {
            Some(bytes) => Some(bytes.as_slice()),
            None => None,
        }
    }

    /// What a server executed, number by number; None exactly for one that is faulty or doesn't exist.
    pub fn executed(&self, who: ServerId) -> Option<&[Entry]>
        ensures { (d : Deployment) (m : model.World Bytes) → IsWorld self.now d m → option_copied result ≡ entries_of (world_deployment d) m who }
    {
        if !is_served(who) {
            return None;
        }
        Some(self.server.log())
    }

    /// How a server stands, and the server; None exactly for one that is faulty or doesn't exist.
    pub fn server(&self, who: ServerId) -> Option<(ServerState, &Server)>
        ensures { (d : Deployment) (m : model.World Bytes) → IsWorld self.now d m → IsServer d m who (option_map (λ x. (x.0, x.1.now)) result) }
    {
        if !is_served(who) {
            return None;
        }
        Some((ServerState::Running, &self.server))
    }

    /// The server. Takes no memory.
    pub fn into_server(self) -> Server
        ensures { (d : Deployment) (m : model.World Bytes) → IsWorld self d m → IsServerHere d m (a_server 0 0) result }
    {
        let World { server, .. } = self;
        server
    }

    /// The time of a client's last update, 0 at first, and that update's result, once it has one; None exactly for a
    /// client that doesn't exist.
    pub fn client(&self, client: ClientId) -> Option<(u32, Option<(Number, &[u8])>)>
        ensures { (d : Deployment) (m : model.World Bytes) → IsWorld self.now d m → client_seen result ≡ client_in (world_deployment d) m client.0 }
    {
        if !self.has_client(client) {
            return None;
        }
        match self.customers.get(client.0 as usize) {
            Some(customer) => Some((customer.time(), last_result(customer))),
            None => Some((0, None)),
        }
    }

    /// How many messages were sent, and how many pairs of a message and a destination are undelivered.
    pub fn counts(&self) -> (u32, u32)
        requires { IsStanding self.now }
        ensures { (d : Deployment) (m : model.World Bytes) → IsWorld self.now d m → (result.0 ≡ length m.sent) × (result.1 ≡ length m.waiting) }
    {
        (self.sent.len() as u32, self.waiting.len())
    }
}

// The result of a client's last update, if it has one.
#[tactic(auto, unfolding(st_client::specs::Customers::customer_of))]
fn last_result(customer: &Client) -> Option<(Number, &[u8])>
    ensures { result_seen result ≡ result_of (customer_of customer.now).result }
{
    match customer.result() {
        Some(answer) => Some((answer.number, answer.result.as_slice())),
        None => None,
    }
}
