//! Readers of fields: each answers the value and the bytes after it, as the reading that its contract
//! names does on lists, or how many bytes were left where the refused field begins.

ghost use Rattle.std.specs.Prelude.{◌≡◌, ◌<◌, ◌≤◌, ◌+◌, ◌^◌, length, IfOk, IfErr};
ghost use Rattle.std.specs.Int.{w16, w32, w64, IsInRange};
ghost use Rattle.st_fields.specs.declared.error.WordsError.TheVariants as words;
ghost use Rattle.st_fields.specs.declared.error.FieldError.TheVariants as fields;
ghost use Rattle.st_fields.specs.Reading.{Read, Gives, IsRefused, Answers, all_read, byte_at, bytes_at, number_at, byte_in, number_in, number_above, positive_at, text_at, mark_at};

use crate::error::{FieldError, WordsError};
use crate::seq::{Bytes, Seq};
use std::alloc::Global;

/// A byte.
#[tactic(auto, unfolding(crate::specs::Reading::byte_at))]
pub fn read_byte(bytes: &[u8]) -> Result<(u8, &[u8]), FieldError>
    ensures gives { Gives (λ x. (x.0, x.1.now)) result (byte_at bytes.now) }
    ensures free { IfErr result IsRefused }
{
    match bytes {
        [] => Err(FieldError::Refused { left: 0 }),
        [first, rest @ ..] => Ok((*first, rest)),
    }
}

/// The next `count` bytes.
#[tactic(auto, unfolding(crate::specs::Reading::bytes_at))]
pub fn read_bytes(bytes: &[u8], count: usize) -> Result<(&[u8], &[u8]), FieldError>
    ensures gives { Gives (λ x. (x.0.now, x.1.now)) result (bytes_at count bytes.now) }
    ensures count { IfOk result (λ x. length x.0.now ≡ count) }
    ensures free { IfErr result IsRefused }
{
    if bytes.len() < count {
        return Err(FieldError::Refused { left: bytes.len() });
    }
    Ok(bytes.split_at(count))
}

/// A number of two bytes.
#[tactic(auto, unfolding(crate::specs::Reading::number_at))]
pub fn read_u16(bytes: &[u8]) -> Result<(u16, &[u8]), FieldError>
    ensures gives { Gives (λ x. (x.0, x.1.now)) result (number_at w16 bytes.now) }
    ensures free { IfErr result IsRefused }
{
    let (front, rest) = read_bytes(bytes, 2)?;
    Ok((u16::from_be_bytes([front[0], front[1]]), rest))
}

/// A number of four bytes.
#[tactic(auto, unfolding(crate::specs::Reading::number_at))]
pub fn read_u32(bytes: &[u8]) -> Result<(u32, &[u8]), FieldError>
    ensures gives { Gives (λ x. (x.0, x.1.now)) result (number_at w32 bytes.now) }
    ensures free { IfErr result IsRefused }
{
    let (front, rest) = read_bytes(bytes, 4)?;
    let number = u32::from_be_bytes([front[0], front[1], front[2], front[3]]);
    Ok((number, rest))
}

/// A number of eight bytes.
#[tactic(auto, unfolding(crate::specs::Reading::number_at))]
pub fn read_u64(bytes: &[u8]) -> Result<(u64, &[u8]), FieldError>
    ensures gives { Gives (λ x. (x.0, x.1.now)) result (number_at w64 bytes.now) }
    ensures free { IfErr result IsRefused }
{
    let (front, rest) = read_bytes(bytes, 8)?;
    let number = u64::from_be_bytes([
        front[0], front[1], front[2], front[3], front[4], front[5], front[6], front[7],
    ]);
    Ok((number, rest))
}

/// A byte from `least` to `most`; none where `least` is 256.
#[tactic(auto, unfolding(crate::specs::Reading::byte_in, crate::specs::Reading::checked))]
pub fn read_byte_in(bytes: &[u8], least: u16, most: u8) -> Result<(u8, &[u8]), FieldError>
    ensures gives { Gives (λ x. (x.0, x.1.now)) result (byte_in least most bytes.now) }
    ensures within { IfOk result (λ x. IsInRange least most x.0) }
    ensures free { IfErr result IsRefused }
{
    let (byte, rest) = read_byte(bytes)?;
    if least <= u16::from(byte) && byte <= most {
        Ok((byte, rest))
    } else {
        Err(FieldError::Refused { left: bytes.len() })
    }
}

/// A number of two bytes, from `least` to `most`.
#[tactic(auto, unfolding(crate::specs::Reading::number_in, crate::specs::Reading::checked))]
pub fn read_u16_in(bytes: &[u8], least: u16, most: u16) -> Result<(u16, &[u8]), FieldError>
    ensures gives { Gives (λ x. (x.0, x.1.now)) result (number_in w16 least most bytes.now) }
    ensures within { IfOk result (λ x. IsInRange least most x.0) }
    ensures free { IfErr result IsRefused }
{
    let (number, rest) = read_u16(bytes)?;
    if least <= number && number <= most {
        Ok((number, rest))
    } else {
        Err(FieldError::Refused { left: bytes.len() })
    }
}

/// A number of four bytes, from `least` to `most`.
#[tactic(auto, unfolding(crate::specs::Reading::number_in, crate::specs::Reading::checked))]
pub fn read_u32_in(bytes: &[u8], least: u32, most: u32) -> Result<(u32, &[u8]), FieldError>
    ensures gives { Gives (λ x. (x.0, x.1.now)) result (number_in w32 least most bytes.now) }
    ensures within { IfOk result (λ x. IsInRange least most x.0) }
    ensures free { IfErr result IsRefused }
{
    let (number, rest) = read_u32(bytes)?;
    if least <= number && number <= most {
        Ok((number, rest))
    } else {
        Err(FieldError::Refused { left: bytes.len() })
    }
}

/// A number of four bytes above `low`, and at most `most`.
#[tactic(auto, unfolding(crate::specs::Reading::number_in, crate::specs::Reading::checked))]
pub fn read_above(bytes: &[u8], low: u32, most: u32) -> Result<(u32, &[u8]), FieldError>
    ensures gives { Gives (λ x. (x.0, x.1.now)) result (number_above w32 low most bytes.now) }
    ensures within { IfOk result (λ x. (low < x.0) × (x.0 ≤ most)) }
    ensures free { IfErr result IsRefused }
{
    let (number, rest) = read_u32(bytes)?;
    if low < number && number <= most {
        Ok((number, rest))
    } else {
        Err(FieldError::Refused { left: bytes.len() })
    }
}

/// A number of four bytes, at least 1.
#[tactic(auto, unfolding(crate::specs::Reading::positive_at))]
pub fn read_positive(bytes: &[u8]) -> Result<(u32, &[u8]), FieldError>
    ensures gives { Gives (λ x. (x.0, x.1.now)) result (positive_at bytes.now) }
    ensures within { IfOk result (λ x. 1 ≤ x.0) }
    ensures free { IfErr result IsRefused }
{
    read_above(bytes, 0, u32::MAX)
}

/// From `least` to `most` bytes, behind their number of two bytes.
#[tactic(auto, unfolding(crate::specs::Reading::text_at))]
pub fn read_text(
    alloc: Global,
    bytes: &[u8],
    least: u16,
    most: u16,
) -> Result<(Bytes, &[u8]), FieldError>
    ensures { Gives (λ x. (x.0, x.1.now)) result (text_at least most bytes.now) }
{
    let (count, rest) = read_u16_in(bytes, least, most)?;
    let (text, rest) = read_bytes(rest, usize::from(count))?;
    Ok((Seq::from_vec(Vec::from_slice(alloc, text)?), rest))
}

/// The bytes after `mark`, with which the bytes have to begin.
#[tactic(auto, unfolding(crate::specs::Reading::mark_at))]
pub fn read_mark<'a>(bytes: &'a [u8], mark: &[u8]) -> Result<&'a [u8], FieldError>
    ensures gives { Gives (λ rest. (tt, rest.now)) result (mark_at mark.now bytes.now) }
    ensures free { IfErr result IsRefused }
{
    if bytes.starts_with(mark) {
        Ok(&bytes[mark.len()..])
    } else {
        Err(FieldError::Refused { left: bytes.len() })
    }
}

/// What reading all of `bytes` answers, where `read` is what reading its front answered: bytes after
/// the value are a fault, and a fault is placed by its offset.
pub fn read_whole<T: Drop>(
    bytes: &[u8],
    read: Result<(T, &[u8]), FieldError>,
) -> Result<T, WordsError>
    ensures answers { (reading : Read T) → Gives (λ x. (x.0, x.1.now)) read.entry reading → Answers result (all_read (length bytes.now) reading) }
    ensures free { result ≡ Err words.OutOfMemory → read.entry ≡ Err fields.OutOfMemory }
{
    match read {
        Ok((value, rest)) if rest.is_empty() => Ok(value),
        Ok((_, rest)) => Err(WordsError::Malformed {
            place: bytes.len().saturating_sub(rest.len()),
        }),
        Err(FieldError::Refused { left }) => Err(WordsError::Malformed {
            place: bytes.len().saturating_sub(left),
        }),
        Err(FieldError::OutOfMemory) => Err(WordsError::OutOfMemory),
    }
}
