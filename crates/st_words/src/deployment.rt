use crate::ids::Servers;

/// The last number of a log.
pub const LAST_NUMBER: u32 = 1_024;

/// How many numbers above the executed count a server works on.
pub const WINDOW: u32 = 16;

/// The greatest view, and the greatest local view.
pub const MOST_VIEW: u32 = 65_535;

/// Which service the log drives.
#[derive(Clone, Copy, Debug, PartialEq, Eq)]
pub enum ServiceKind {
    List,
    Kv,
}

/// How parties seal.
#[derive(Clone, Copy, Debug, PartialEq, Eq)]
pub enum SealKind {
    /// By keys that anyone who has the deployment can compute.
    Keyed,
    /// By HSS keys of this height (5 or 10), width (4 or 8) and number of levels (1 or 2).
    Hss { height: u8, width: u8, levels: u8 },
}

/// A deployment: its sites, servers and clients, and how they seal. It has no `Debug`, so that no text shows
/// the seed.
#[derive(Drop)]
pub struct Deployment {
    /// Below 2^63.
    pub id: u64,
    /// 1 to 7.
    pub sites: u8,
    /// How many servers of a site may be faulty, 0 to 2; a site has 3f+1 servers.
    pub f: u8,
    /// 0 to 64.
    pub clients: u8,
    pub service: ServiceKind,
    pub seals: SealKind,
    pub seed: [u8; 32],
    /// The faulty servers, each once, at most f a site.
    pub faulty: Servers,
    pub port: u16,
}
