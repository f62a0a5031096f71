//! The bytes of messages.

ghost use Rattle.std.specs.Prelude.{◌≡◌, ◌≢◌, ◌++◌, ◌<◌, ◌≤◌, ◌^◌, [], ℕ, List, length, Ok, Err, OnOk, IfOk, IsOkUnless};
ghost use Rattle.st_fields.specs.Reading.{Gives, Answers, whole};
ghost use Rattle.st_message.specs.declared.message.Message.{Message};
ghost use Rattle.st_wire.specs.declared.error.MessageError.TheVariants as errors;
ghost use Rattle.st_wire.specs.Errors.{reading_of, IsReading};
ghost use Rattle.st_wire.specs.Ranges.{most_bytes, KeepsMessage, FitsMessage};
ghost use Rattle.st_wire.specs.Reading.{message_at};
ghost use Rattle.st_wire.specs.Spelling.{message_spelling};

use crate::body::read_body;
use crate::error::MessageError;
use crate::kind::{ALL_KINDS, MessageKind};
use crate::limits::MOST_BYTES;
use crate::put_body::put_body;
use st_fields::{
    Bytes, FieldError, Numbered, Seq, WordsError, put_byte, put_bytes, put_u64, read_kind,
    read_mark, read_u64, read_whole,
};
use st_message::Message;
use std::alloc::{AllocError, Global};

const MESSAGE_MARK: [u8; 4] = *b"STM1";

#[tactic(auto, unfolding(crate::specs::Spelling::message_spelling))]
fn put_message(out: &mut Vec<u8>, id: u64, message: &Message) -> Result<(), AllocError>
    requires { KeepsMessage message.now }
    ensures { OnOk result (out.new.items ≡ out.old.items ++ message_spelling id message.now) }
{
    put_bytes(out, &MESSAGE_MARK)?;
    put_u64(out, id)?;
    put_byte(out, MessageKind::of(message).number())?;
    put_body(out, message)?;
    Ok(())
}

/// The bytes of a message of the deployment `id`.
pub fn encode(alloc: Global, id: u64, message: &Message) -> Result<Bytes, MessageError>
    requires { KeepsMessage message.now }
    ensures spelled { IfOk result (λ bytes. bytes ≡ message_spelling id message.now) }
    ensures memory { IsOkUnless result errors.OutOfMemory }
{
    let mut out = Vec::new(alloc);
    put_message(&mut out, id, message)?;
    Ok(Seq::from_vec(out))
}

#[tactic(auto, unfolding(crate::specs::Reading::message_at))]
fn read_front(alloc: Global, bytes: &[u8]) -> Result<((u64, Message), &[u8]), FieldError>
    ensures { Gives (λ x. (x.0, x.1.now)) result (message_at bytes.now) }
{
    let rest = read_mark(bytes, &MESSAGE_MARK)?;
    let (id, rest) = read_u64(rest)?;
    let (kind, rest) = read_kind(rest, &ALL_KINDS)?;
    let (message, rest) = read_body(alloc, kind, rest)?;
    Ok(((id, message), rest))
}

#[tactic(auto, unfolding(st_fields::specs::Reading::whole))]
fn read_all(alloc: Global, bytes: &[u8]) -> Result<(u64, Message), WordsError>
    ensures { Answers result (whole message_at bytes.now) }
{
    read_whole(bytes, read_front(alloc, bytes))
}

#[tactic(auto, unfolding(crate::specs::Errors::reading_of))]
fn read_named(alloc: Global, id: u64, bytes: &[u8]) -> Result<Message, MessageError>
    ensures { IsReading result (reading_of id bytes.now) }
{
    if bytes.len() > MOST_BYTES {
        return Err(MessageError::TooLong { bytes: bytes.len() });
    }
    let (named, message) = read_all(alloc, bytes)?;
    if named == id {
        Ok(message)
    } else {
        Err(MessageError::WrongDeployment { id: named })
    }
}

/// The message of the deployment `id` whose bytes these are. TooLong where there are more than
/// 4,194,304; else Malformed where the bytes are no message's; else WrongDeployment where they are
/// another deployment's message.
pub fn decode(alloc: Global, id: u64, bytes: &[u8]) -> Result<Message, MessageError>
    // What is read is spelled so, each byte of it, and isn't too long.
    ensures found { IfOk result (λ m. (bytes.now ≡ message_spelling id m) × KeepsMessage m × FitsMessage m × (length (message_spelling id m) ≤ most_bytes)) }
    // Which message or fault it is.
    ensures exact { IsReading result (reading_of id bytes.now) }
{
    read_named(alloc, id, bytes)
}

/// What is spelled so is read, where it isn't too long.
pub fn read_back()
    ensures { (id : ℕ) (m : Message) → id < 2 ^ 64 → KeepsMessage m → FitsMessage m → length (message_spelling id m) ≤ most_bytes → reading_of id (message_spelling id m) ≡ Ok m }
{}

/// What is spelled in another deployment is named as its own, where it isn't too long.
pub fn read_elsewhere()
    ensures { (id other : ℕ) (m : Message) → other < 2 ^ 64 → other ≢ id → KeepsMessage m → FitsMessage m → length (message_spelling other m) ≤ most_bytes → reading_of id (message_spelling other m) ≡ Err (errors.WrongDeployment other) }
{}

/// No message's bytes are a proper front of another's, or of its own with more behind them.
pub fn no_proper_prefix()
    ensures { (i j : ℕ) (m n : Message) (rest : List ℕ) → i < 2 ^ 64 → j < 2 ^ 64 → KeepsMessage m → FitsMessage m → KeepsMessage n → FitsMessage n → message_spelling i m ++ rest ≡ message_spelling j n → (i ≡ j) × (m ≡ n) × (rest ≡ []) }
{}

/// Two messages, or one message of two deployments, have different bytes.
pub fn one_message()
    ensures { (i j : ℕ) (m n : Message) → i < 2 ^ 64 → j < 2 ^ 64 → KeepsMessage m → FitsMessage m → KeepsMessage n → FitsMessage n → message_spelling i m ≡ message_spelling j n → (i ≡ j) × (m ≡ n) }
{}
