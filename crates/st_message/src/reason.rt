ghost use Rattle.std.specs.Prelude.{Some};

use st_fields::{Copied, Same, WordsError};
use std::alloc::Global;
use std::fmt;

/// Why a server ignores an event, with the values that show it. The first that holds, in this order,
/// is the answer.
#[derive(Clone, Copy, PartialEq, Eq)]
pub enum Reason {
    /// The message has this many bytes, and more than it may.
    TooLong { bytes: usize },
    /// The bytes are no message: `place` is the offset of the first refused field.
    Malformed { place: usize },
    /// The message is of the deployment with this id.
    WrongDeployment { id: u64 },
    /// A site, server or client that isn't of the deployment, or a list of the wrong length.
    Unknown,
    /// The first seal, in byte order, that doesn't check: `place` is the offset of its bytes.
    BadSeal { place: usize },
    /// This server doesn't take such a message yet.
    NotBuilt,
    /// Another site's matter.
    NotMine,
    /// Not the current view or local view, which are shown.
    OtherView { view: u32, local: u32 },
    /// The number is at most the executed count, or above the window.
    OutOfWindow { number: u32, executed: u32 },
    /// Not the representative, whose index is shown.
    NotRep { index: u8 },
    /// A view above the greatest.
    Bound { view: u32 },
    /// Nothing new.
    Seen,
    /// Unions are missing: so many are held of those wanted.
    Waiting { held: u32, wanted: u32 },
    /// The number is at most the base.
    Below { number: u32, base: u32 },
    /// Not a value that may stand there.
    OtherValue,
    /// The client's last time is shown.
    OldTime { last: u32 },
    /// Fewer seals are left than the duty needs: so many are used.
    SealsSpent { used: u32 },
    /// The number is above the last one of a log.
    LogFull { number: u32 },
}

impl Copied for Reason {
    fn copy(&self, _alloc: Global) -> Result<Reason, WordsError> {
        Ok(*self)
    }
}

impl Same for Reason {
    fn same(&self, other: &Reason) -> bool {
        *self == *other
    }
}

/// The reason's words, with its values in decimal.
impl fmt::Display for Reason {
    ghost use Rattle.st_message.specs.Words.{reason_words};

    ghost output = { λ reason. Some (reason_words reason) };

    #[tactic(auto, unfolding(crate::specs::Words::reason_words))]
    fn fmt<W: fmt::Write>(&self, f: &mut fmt::Formatter<W>) -> fmt::Result {
        match *self {
            Reason::TooLong { bytes } => write!(f, "too-long {bytes}"),
            Reason::Malformed { place } => write!(f, "malformed {place}"),
            Reason::WrongDeployment { id } => write!(f, "wrong-deployment {id}"),
            Reason::Unknown => write!(f, "unknown"),
            Reason::BadSeal { place } => write!(f, "bad-seal {place}"),
            Reason::NotBuilt => write!(f, "not-built"),
            Reason::NotMine => write!(f, "not-mine"),
            Reason::OtherView { view, local } => write!(f, "other-view {view} {local}"),
            Reason::OutOfWindow { number, executed } => {
                write!(f, "out-of-window {number} {executed}")
            }
            Reason::NotRep { index } => write!(f, "not-rep {index}"),
            Reason::Bound { view } => write!(f, "bound {view}"),
            Reason::Seen => write!(f, "seen"),
            Reason::Waiting { held, wanted } => write!(f, "waiting {held} {wanted}"),
            Reason::Below { number, base } => write!(f, "below {number} {base}"),
            Reason::OtherValue => write!(f, "other-value"),
            Reason::OldTime { last } => write!(f, "old-time {last}"),
            Reason::SealsSpent { used } => write!(f, "seals-spent {used}"),
            Reason::LogFull { number } => write!(f, "log-full {number}"),
        }
    }
}
