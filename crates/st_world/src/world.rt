use st_client::Client;
use st_fields::{Bytes, Seq};
use st_hss_seal::{DeploymentSeals, PartySealer};
use st_made::Made;
use st_sealers::ClientSealers;
use st_server::Server;
use st_tables::Table;
use st_waiting::Waiting;
use st_words::Deployment;

/// A world of one server and its clients.
#[derive(Drop)]
pub struct World {
    pub(crate) deployment: Deployment,
    pub(crate) seals: DeploymentSeals,
    // The server's.
    pub(crate) sealer: PartySealer,
    pub(crate) sealers: ClientSealers,
    pub(crate) server: Server,
    // Per client; one that isn't there has asked for nothing.
    pub(crate) customers: Table<Client>,
    // The bytes of all messages, in the order in which they were handed out.
    pub(crate) sent: Seq<Bytes>,
    // How many bytes that are.
    pub(crate) size: u64,
    // Which of them isn't delivered where yet.
    pub(crate) waiting: Waiting,
    // What correct parties sealed.
    pub(crate) made: Made,
}

/// Whether a server goes on.
#[derive(Clone, Copy, Debug, PartialEq, Eq)]
pub enum ServerState {
    Running,
    /// A device call failed: it takes no more events.
    Stopped,
    /// Its journal is full: it takes no more events.
    Full,
}
