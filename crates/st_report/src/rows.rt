use st_fields::{Bytes, Copied, Seq, WordsError};
use st_message::{Ran, Reason};
use st_words::{ClientId, LocalView, Number, ServerId, Value, View};
use std::alloc::Global;

/// The numbers of the report's first line.
#[derive(Clone, Copy, Debug, PartialEq, Eq)]
pub struct Header {
    pub id: u64,
    pub sites: u8,
    pub f: u8,
    pub clients: u8,
}

/// What an event line came to, as the report says it.
#[derive(Drop)]
pub enum DoneWords {
    /// The message of this number was handed out.
    Sent(u32),
    /// The client has no seal left: so many are used.
    SealsSpent(u32),
    /// The event did something.
    Did,
    /// The event was ignored for this reason.
    Ignored(Reason),
    /// The server stands stopped.
    Stopped,
    /// The server's journal is full.
    Full,
    /// The server is faulty.
    Faulty,
    /// So many messages were delivered, and of those events so many did something, or were ignored.
    Flowed { pairs: u32, did: u32, ignored: u32 },
    /// So many undelivered messages were lost.
    Dropped(u32),
    /// The stop is set.
    Set,
    /// The server was started again.
    Running,
    /// The bytes of a message.
    Shown(Bytes),
}

/// What the event line of this number of the input, from 1, came to.
#[derive(Drop)]
pub struct DoneRow {
    pub line: u32,
    pub words: DoneWords,
}

/// What the event lines came to, in order.
pub type DoneRows = Seq<DoneRow>;

/// Whether a server goes on.
#[derive(Clone, Copy, Debug, PartialEq, Eq)]
pub enum StateWord {
    Running,
    Stopped,
    Full,
}

/// One executed number: its value and what running it gave, which is nothing exactly for a no-op.
#[derive(Drop)]
pub struct LogRow {
    pub value: Value,
    pub ran: Ran,
}

/// An executed log, from number 1.
pub type LogRows = Seq<LogRow>;

/// A correct server: where it stands, and its log.
#[derive(Drop)]
pub struct ServerRow {
    pub who: ServerId,
    pub state: StateWord,
    pub view: View,
    pub local: LocalView,
    pub executed: u32,
    pub leaf: u32,
    pub log: LogRows,
}

/// The correct servers, by site and index.
pub type ServerRows = Seq<ServerRow>;

/// A client: its last time, 0 at first, and the result of its last update, if any.
#[derive(Drop)]
pub struct ClientRow {
    pub client: ClientId,
    pub time: u32,
    pub result: Option<(Number, Bytes)>,
}

/// The clients, in order.
pub type ClientRows = Seq<ClientRow>;

/// All that a report says.
#[derive(Drop)]
pub struct Rows {
    pub header: Header,
    pub done: DoneRows,
    pub servers: ServerRows,
    pub clients: ClientRows,
    pub sent: u32,
    pub undelivered: u32,
}

impl Copied for DoneWords {
    fn copy(&self, alloc: Global) -> Result<DoneWords, WordsError> {
        match self {
            DoneWords::Sent(message) => Ok(DoneWords::Sent(*message)),
            DoneWords::SealsSpent(used) => Ok(DoneWords::SealsSpent(*used)),
            DoneWords::Did => Ok(DoneWords::Did),
            DoneWords::Ignored(reason) => Ok(DoneWords::Ignored(*reason)),
            DoneWords::Stopped => Ok(DoneWords::Stopped),
            DoneWords::Full => Ok(DoneWords::Full),
            DoneWords::Faulty => Ok(DoneWords::Faulty),
            DoneWords::Flowed {
                pairs,
                did,
                ignored,
            } => Ok(DoneWords::Flowed {
                pairs: *pairs,
                did: *did,
                ignored: *ignored,
            }),
            DoneWords::Dropped(pairs) => Ok(DoneWords::Dropped(*pairs)),
            DoneWords::Set => Ok(DoneWords::Set),
            DoneWords::Running => Ok(DoneWords::Running),
            DoneWords::Shown(bytes) => Ok(DoneWords::Shown(bytes.copy(alloc)?)),
        }
    }
}

impl Copied for DoneRow {
    fn copy(&self, alloc: Global) -> Result<DoneRow, WordsError> {
        Ok(DoneRow {
            line: self.line,
            words: self.words.copy(alloc)?,
        })
    }
}

impl Copied for LogRow {
    fn copy(&self, alloc: Global) -> Result<LogRow, WordsError> {
        Ok(LogRow {
            value: self.value.copy(alloc)?,
            ran: self.ran.copy(alloc)?,
        })
    }
}

impl Copied for ServerRow {
    fn copy(&self, alloc: Global) -> Result<ServerRow, WordsError> {
        Ok(ServerRow {
            who: self.who,
            state: self.state,
            view: self.view,
            local: self.local,
            executed: self.executed,
            leaf: self.leaf,
            log: self.log.copy(alloc)?,
        })
    }
}

impl Copied for ClientRow {
    fn copy(&self, alloc: Global) -> Result<ClientRow, WordsError> {
        match &self.result {
            None => Ok(ClientRow {
                client: self.client,
                time: self.time,
                result: None,
            }),
            Some((number, bytes)) => Ok(ClientRow {
                client: self.client,
                time: self.time,
                result: Some((*number, bytes.copy(alloc)?)),
            }),
        }
    }
}
