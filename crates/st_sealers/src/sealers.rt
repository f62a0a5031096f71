ghost use Rattle.std.specs.Prelude.{◌≡◌, ◌<◌, length, IfOk, IsOkUnless};
ghost use Rattle.st_fields.specs.declared.error.WordsError.TheVariants as words;
ghost use Rattle.st_seal.specs.Scheme.{Scheme};
ghost use Rattle.st_hss_seal.specs.Sealers.{scheme_in, pen_of};
ghost use Rattle.st_hss_seal.specs.Sealing.{pen_in};
ghost use Rattle.st_protocol.specs.Words.{client_at};
ghost use Rattle.st_sealing.specs.Sealing.{pen_by};
ghost use Rattle.st_sealers.specs.Keeping.{KeepsSealers};

use st_fields::{Bytes, WordsError};
use st_hss_seal::{DeploymentSeals, PartySealer};
use st_sealing::seal_statement;
use st_words::{ClientId, Statement, Who};
use std::alloc::Global;

/// The sealers of a deployment's clients. Each is made when its client first seals, and kept, since that of
/// an HSS key makes a tree.
#[derive(Drop)]
pub struct ClientSealers {
    places: Vec<Option<PartySealer>>,
}

impl ClientSealers {
    /// The places of so many clients, none of which has sealed yet.
    pub fn new(alloc: Global, clients: u8) -> Result<ClientSealers, WordsError>
        ensures keeps { IfOk result (λ all. (s : Scheme) → s.clients ≡ clients → KeepsSealers s all) }
        ensures memory { IsOkUnless result words.OutOfMemory }
    {
        let mut places = Vec::new(alloc);
        for _client in 0..clients {
            places.push(None)?;
        }
        Ok(ClientSealers { places })
    }

    /// A client's seal over a statement of its deployment, of this identity, with this leaf. The first one of
    /// a client of HSS seals makes the client's first tree. After an error the sealers are still the clients'.
    pub fn seal(
        &mut self,
        alloc: Global,
        seals: &DeploymentSeals,
        id: u64,
        client: ClientId,
        leaf: u32,
        statement: &Statement,
    ) -> Result<Bytes, WordsError>
        requires keeps { KeepsSealers (scheme_in seals.now) self.old }
        requires client { client.0 < (scheme_in seals.now).clients }
        requires leaf { leaf < (pen_in (scheme_in seals.now) (client_at client.0)).capacity }
        ensures seal { IfOk result (λ seal. seal ≡ pen_by (pen_in (scheme_in seals.now) (client_at client.0)) id leaf statement.now) }
        ensures keeps { KeepsSealers (scheme_in seals.now) self.new }
        ensures memory { IsOkUnless result words.OutOfMemory }
    {
        let mut sealer = self.take(alloc, seals, client)?;
        let sealed = seal_statement(alloc, &mut sealer, id, leaf, statement);
        self.put(client, sealer);
        sealed
    }

    // A client's sealer, out of its place; a new one where none is kept.
    fn take(
        &mut self,
        alloc: Global,
        seals: &DeploymentSeals,
        client: ClientId,
    ) -> Result<PartySealer, WordsError>
        requires keeps { KeepsSealers (scheme_in seals.now) self.old }
        requires client { client.0 < (scheme_in seals.now).clients }
        ensures sealer { IfOk result (λ sealer. pen_of sealer ≡ pen_in (scheme_in seals.now) (client_at client.0)) }
        ensures keeps { KeepsSealers (scheme_in seals.now) self.new }
        ensures memory { IsOkUnless result words.OutOfMemory }
    {
        match self.places[usize::from(client.0)].take() {
            Some(sealer) => Ok(sealer),
            None => match seals.sealer(alloc, Who::Client(client)) {
                Ok(sealer) => Ok(sealer),
                Err(_) => Err(WordsError::OutOfMemory),
            },
        }
    }

    // Puts a client's sealer in its place.
    fn put(&mut self, client: ClientId, sealer: PartySealer)
        requires { client.0 < length self.old.places.items }
        ensures { (s : Scheme) → KeepsSealers s self.old → pen_of sealer ≡ pen_in s (client_at client.0) → KeepsSealers s self.new }
    {
        self.places[usize::from(client.0)] = Some(sealer);
    }
}
