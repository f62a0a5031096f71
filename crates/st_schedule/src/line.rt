use st_fields::{Bytes, Copied, Seq, WordsError};
use st_words::{ClientId, ServerId, Statement};
use std::alloc::Global;

/// Where a message goes.
#[derive(Clone, Copy, Debug, PartialEq, Eq)]
pub enum Dest {
    Server(ServerId),
    Client(ClientId),
}

/// One event of a schedule.
#[derive(Drop)]
pub enum Line {
    /// The client seals its next update with this operation.
    Client {
        client: ClientId,
        op: Bytes,
    },
    /// The message is delivered, whether or not it was sent there.
    Deliver {
        message: u32,
        to: Dest,
    },
    /// The undelivered message is lost.
    Drop {
        message: u32,
        to: Dest,
    },
    /// All that is undelivered to it is lost.
    Lose {
        to: Dest,
    },
    /// Up to so many times, the oldest undelivered message is delivered.
    Flow {
        pairs: u32,
    },
    /// A timeout of a correct server.
    Timeout {
        server: ServerId,
        global: bool,
    },
    /// A tick of a correct server.
    Tick {
        server: ServerId,
    },
    /// The server's device call of this number, from now on and from 1, fails.
    Stop {
        server: ServerId,
        call: u32,
    },
    /// The server crashes, with its unsynced writes all there or all gone, and starts again.
    Restart {
        server: ServerId,
        kept: bool,
    },
    /// A faulty server seals the statement.
    Seal {
        server: ServerId,
        statement: Statement,
    },
    /// These bytes are delivered.
    Raw {
        to: Dest,
        bytes: Bytes,
    },
    /// The bytes of the message are printed.
    Show {
        message: u32,
    },
}

/// A list of event lines.
pub type Lines = Seq<Line>;

impl Copied for Line {
    fn copy(&self, alloc: Global) -> Result<Line, WordsError> {
        match self {
            Line::Client { client, op } => Ok(Line::Client {
                client: *client,
                op: op.copy(alloc)?,
            }),
            Line::Deliver { message, to } => Ok(Line::Deliver {
                message: *message,
                to: *to,
            }),
            Line::Drop { message, to } => Ok(Line::Drop {
                message: *message,
                to: *to,
            }),
            Line::Lose { to } => Ok(Line::Lose { to: *to }),
            Line::Flow { pairs } => Ok(Line::Flow { pairs: *pairs }),
            Line::Timeout { server, global } => Ok(Line::Timeout {
                server: *server,
                global: *global,
            }),
            Line::Tick { server } => Ok(Line::Tick { server: *server }),
            Line::Stop { server, call } => Ok(Line::Stop {
                server: *server,
                call: *call,
            }),
            Line::Restart { server, kept } => Ok(Line::Restart {
                server: *server,
                kept: *kept,
            }),
            Line::Seal { server, statement } => Ok(Line::Seal {
                server: *server,
                statement: statement.copy(alloc)?,
            }),
            Line::Raw { to, bytes } => Ok(Line::Raw {
                to: *to,
                bytes: bytes.copy(alloc)?,
            }),
            Line::Show { message } => Ok(Line::Show { message: *message }),
        }
    }
}
