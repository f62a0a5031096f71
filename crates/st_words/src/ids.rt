use st_fields::{Copied, Same, Seq, WordsError};
use std::alloc::Global;

/// A site, from 0.
#[derive(Clone, Copy, Debug, PartialEq, Eq)]
pub struct SiteId(pub u8);

/// A client, from 0.
#[derive(Clone, Copy, Debug, PartialEq, Eq)]
pub struct ClientId(pub u8);

/// A server: its site, and its index in that site, from 0.
#[derive(Clone, Copy, Debug, PartialEq, Eq)]
pub struct ServerId {
    pub site: u8,
    pub index: u8,
}

/// A global view: its leader site is the view mod the number of sites.
#[derive(Clone, Copy, Debug, PartialEq, Eq)]
pub struct View(pub u32);

/// A local view of a site: its representative is the local view mod the number of the site's servers.
#[derive(Clone, Copy, Debug, PartialEq, Eq)]
pub struct LocalView(pub u32);

/// A number of the log, from 1.
#[derive(Clone, Copy, Debug, PartialEq, Eq)]
pub struct Number(pub u32);

/// Who seals: a server or a client.
#[derive(Clone, Copy, Debug, PartialEq, Eq)]
pub enum Who {
    Server(ServerId),
    Client(ClientId),
}

/// A list of servers.
pub type Servers = Seq<ServerId>;

impl Copied for ServerId {
    fn copy(&self, _alloc: Global) -> Result<ServerId, WordsError> {
        Ok(*self)
    }
}

impl Same for ServerId {
    fn same(&self, other: &ServerId) -> bool {
        *self == *other
    }
}

impl Copied for Who {
    fn copy(&self, _alloc: Global) -> Result<Who, WordsError> {
        Ok(*self)
    }
}

impl Same for Who {
    fn same(&self, other: &Who) -> bool {
        *self == *other
    }
}
