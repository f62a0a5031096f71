//! The bytes of updates and values.

ghost use Rattle.std.specs.Prelude.{◌≡◌, ◌++◌, OnOk};
ghost use Rattle.st_fields.specs.Reading.{Gives};
ghost use Rattle.st_words.specs.Ranges.{KeepsUpdate, KeepsValue};
ghost use Rattle.st_words.specs.Spelling.{update_fields, update_spelling, value_spelling};
ghost use Rattle.st_words.specs.Reading.{update_fields_at, update_at, value_at};

use crate::ids::ClientId;
use crate::value::{Update, Value};
use st_fields::{
    FieldError, put_byte, put_text, put_u32, read_byte, read_byte_in, read_mark, read_positive,
    read_text,
};
use std::alloc::{AllocError, Global};

/// How many bytes an operation has at most, and a result.
pub const MOST_TEXT: u16 = 1_024;

#[tactic(auto, unfolding(crate::specs::Reading::update_fields_at))]
fn read_update_fields(alloc: Global, bytes: &[u8]) -> Result<(Update, &[u8]), FieldError>
    ensures { Gives (λ x. (x.0, x.1.now)) result (update_fields_at bytes.now) }
{
    let (client, rest) = read_byte(bytes)?;
    let (time, rest) = read_positive(rest)?;
    let (op, rest) = read_text(alloc, rest, 0, MOST_TEXT)?;
    let client = ClientId(client);
    Ok((Update { client, time, op }, rest))
}

/// A value that is an update.
#[tactic(auto, unfolding(crate::specs::Reading::update_at))]
pub fn read_update(alloc: Global, bytes: &[u8]) -> Result<(Update, &[u8]), FieldError>
    ensures { Gives (λ x. (x.0, x.1.now)) result (update_at bytes.now) }
{
    let rest = read_mark(bytes, &[1])?;
    read_update_fields(alloc, rest)
}

/// A value.
#[tactic(auto, unfolding(crate::specs::Reading::value_at))]
pub fn read_value(alloc: Global, bytes: &[u8]) -> Result<(Value, &[u8]), FieldError>
    ensures { Gives (λ x. (x.0, x.1.now)) result (value_at bytes.now) }
{
    let (mark, rest) = read_byte_in(bytes, 0, 1)?;
    if mark == 0 {
        return Ok((Value::Noop, rest));
    }
    let (update, rest) = read_update_fields(alloc, rest)?;
    Ok((Value::Update(update), rest))
}

#[tactic(auto, unfolding(crate::specs::Spelling::update_fields))]
fn put_update_fields(out: &mut Vec<u8>, update: &Update) -> Result<(), AllocError>
    requires { KeepsUpdate update.now }
    ensures { OnOk result (out.new.items ≡ out.old.items ++ update_fields update.now) }
{
    put_byte(out, update.client.0)?;
    put_u32(out, update.time)?;
    put_text(out, update.op.as_slice())?;
    Ok(())
}

/// A value that is an update. Where memory is refused, a part of it may stand in `out`.
#[tactic(auto, unfolding(crate::specs::Spelling::update_spelling))]
pub fn put_update(out: &mut Vec<u8>, update: &Update) -> Result<(), AllocError>
    requires { KeepsUpdate update.now }
    ensures { OnOk result (out.new.items ≡ out.old.items ++ update_spelling update.now) }
{
    put_byte(out, 1)?;
    put_update_fields(out, update)?;
    Ok(())
}

/// A value. Where memory is refused, a part of it may stand in `out`.
#[tactic(auto, unfolding(crate::specs::Spelling::value_spelling))]
pub fn put_value(out: &mut Vec<u8>, value: &Value) -> Result<(), AllocError>
    requires { KeepsValue value.now }
    ensures { OnOk result (out.new.items ≡ out.old.items ++ value_spelling value.now) }
{
    match value {
        Value::Noop => put_byte(out, 0)?,
        Value::Update(update) => put_update(out, update)?,
    }
    Ok(())
}
