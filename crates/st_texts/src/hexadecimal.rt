ghost use Rattle.std.specs.Prelude.{◌≡◌, ◌≤◌, ◌*◌, ◌++◌, ℕ, List, Some, length, string_bytes, IfOk, IfSome, OnOk};
ghost use Rattle.hex.specs.Hex.{IsBytes};
ghost use Rattle.st_texts.specs.Hexadecimal.{hex_bytes, hex_text};

use hex::FromHexError;
use st_fields::{Bytes, Seq};
use std::alloc::{AllocError, Global};

/// The bytes that a text writes: `-` for none, else two hexadecimal digits a byte, of either case.
/// None for every other text.
#[tactic(auto, using(crate::proofs::HexadecimalLaws::length_hex_bytes), unfolding(crate::specs::Hexadecimal::hex_bytes))]
pub fn read_hex(alloc: Global, text: &str) -> Result<Option<Bytes>, AllocError>
    ensures value { IfOk result (λ bytes. bytes ≡ hex_bytes text.now) }
    ensures short { IfOk result (λ bytes. IfSome bytes (λ b. 2 * length b ≤ length text.now)) }
{
    if text == "-" {
        return Ok(Some(Seq::new(alloc)));
    }
    if text.is_empty() {
        return Ok(None);
    }
    match hex::decode(alloc, text) {
        Ok(bytes) => Ok(Some(Seq::from_vec(bytes))),
        Err(FromHexError::OutOfMemory) => Err(AllocError),
        Err(_) => Ok(None),
    }
}

/// Adds bytes in lower-case hexadecimal to a text, `-` for none. Where memory is refused, a part of it may
/// stand in `out`.
#[tactic(auto, unfolding(crate::specs::Hexadecimal::hex_text))]
pub fn put_hex(alloc: Global, out: &mut String, bytes: &[u8]) -> Result<(), AllocError>
    ensures { OnOk result (string_bytes out.new ≡ string_bytes out.old ++ hex_text bytes.now) }
{
    if bytes.is_empty() {
        out.push_str("-")?;
    } else {
        let text = hex::encode(alloc, bytes)?;
        out.push_str(text.as_str())?;
    }
    Ok(())
}

/// The text of bytes is read back as these bytes.
pub fn bytes_have_a_text()
    ensures { (bytes : List ℕ) → IsBytes bytes → hex_bytes (hex_text bytes) ≡ Some bytes }
{}
