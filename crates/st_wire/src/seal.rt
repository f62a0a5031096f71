//! The seals that stand in a message.

ghost use Rattle.std.specs.Prelude.{◌≡◌, ◌≤◌, ℕ, [], length, All, IfOk, IsOkUnless};
ghost use Rattle.std.specs.List.{flat_map};
ghost use Rattle.st_fields.specs.declared.error.WordsError.TheVariants as words;
ghost use Rattle.st_message.specs.declared.message.Message.{Message};
ghost use Rattle.st_wire.specs.declared.error.MessageError.TheVariants as errors;
ghost use Rattle.st_wire.specs.Ranges.{most_bytes, KeepsMessage};
ghost use Rattle.st_wire.specs.Spelling.{message_spelling};
ghost use Rattle.st_wire.specs.Seals.{body_pieces, message_pieces, piece_spelling, seals_of, StandsIn};
ghost use Rattle.st_wire.specs.Layout.{laid};

use crate::error::MessageError;
use crate::layout::Layout;
use st_fields::{Bytes, Copied, Seq, WordsError};
use st_message::Message;
use st_words::{Deployment, Statement, Who};
use std::alloc::Global;

/// The bytes before a message's body: its mark, its deployment's id, its kind.
const MESSAGE_HEAD: usize = 13;

/// A seal that stands in a message.
#[derive(Drop)]
pub struct SealIn {
    /// Who sealed, as the message says.
    pub who: Who,
    /// What was sealed.
    pub statement: Statement,
    pub seal: Bytes,
    /// The offset of the seal's first byte in the message, behind the seal's length.
    pub place: usize,
}

impl Copied for SealIn {
    fn copy(&self, alloc: Global) -> Result<SealIn, WordsError> {
        Ok(SealIn {
            who: self.who,
            statement: self.statement.copy(alloc)?,
            seal: self.seal.copy(alloc)?,
            place: self.place,
        })
    }
}

/// A list of seals.
pub type SealsIn = Seq<SealIn>;

fn lay_out(alloc: Global, sites: u8, message: &Message) -> Result<Layout, WordsError>
    requires sites { 1 ≤ sites }
    requires keeps { KeepsMessage message.now }
    ensures laid { IfOk result (λ layout. layout ≡ laid (record { at = 13; seals = [] }) (body_pieces sites message.now)) }
    ensures memory { IsOkUnless result words.OutOfMemory }
{
    let mut layout = Layout {
        at: MESSAGE_HEAD,
        seals: Seq::new(alloc),
    };
    layout.body(alloc, sites, message)?;
    Ok(layout)
}

/// The seals in a message of a deployment with its number of sites, in byte order.
pub fn seals_in(alloc: Global, d: &Deployment, message: &Message) -> Result<SealsIn, MessageError>
    requires sites { 1 ≤ d.now.sites }
    requires keeps { KeepsMessage message.now }
    requires size { length (message_spelling d.now.id message.now) ≤ most_bytes }
    ensures listed { IfOk result (λ seals. seals ≡ seals_of d.now.id d.now.sites message.now) }
    ensures memory { IsOkUnless result errors.OutOfMemory }
{
    let layout = lay_out(alloc, d.sites, message)?;
    Ok(layout.seals)
}

/// Every seal stands at its place in the message's bytes.
pub fn seals_stand()
    ensures { (id sites : ℕ) (m : Message) → KeepsMessage m → All (StandsIn (message_spelling id m)) (seals_of id sites m) }
{}

/// A message's pieces, one behind another, are its bytes.
pub fn pieces_are_the_spelling()
    ensures { (id sites : ℕ) (m : Message) → KeepsMessage m → flat_map piece_spelling (message_pieces id sites m) ≡ message_spelling id m }
{}
