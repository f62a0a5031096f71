//! Writers of fields: each puts the spelling of its field last. Where memory is refused, a part of
//! the field may stand in `out`.

ghost use Rattle.std.specs.Prelude.{◌≡◌, ◌++◌, ◌<◌, ◌≤◌, ◌^◌, List, ℕ, length, All, OnOk};
ghost use Rattle.std.specs.Int.{w16, w32, w64};
ghost use Rattle.std.specs.List.{flat_map};
ghost use Rattle.st_fields.specs.Spelling.{byte, number, text, counted};

use std::alloc::AllocError;

/// A byte.
pub fn put_byte(out: &mut Vec<u8>, n: u8) -> Result<(), AllocError>
    ensures { OnOk result (out.new.items ≡ out.old.items ++ byte n) }
{
    out.push(n)?;
    Ok(())
}

/// Bytes as they are.
pub fn put_bytes(out: &mut Vec<u8>, bytes: &[u8]) -> Result<(), AllocError>
    ensures { OnOk result (out.new.items ≡ out.old.items ++ bytes.now) }
{
    out.extend_from_slice(bytes)?;
    Ok(())
}

/// A number of two bytes.
#[tactic(auto, unfolding(crate::specs::Spelling::number))]
pub fn put_u16(out: &mut Vec<u8>, n: u16) -> Result<(), AllocError>
    ensures { OnOk result (out.new.items ≡ out.old.items ++ number w16 n) }
{
    out.extend_from_slice(&n.to_be_bytes())?;
    Ok(())
}

/// A number of four bytes.
#[tactic(auto, unfolding(crate::specs::Spelling::number))]
pub fn put_u32(out: &mut Vec<u8>, n: u32) -> Result<(), AllocError>
    ensures { OnOk result (out.new.items ≡ out.old.items ++ number w32 n) }
{
    out.extend_from_slice(&n.to_be_bytes())?;
    Ok(())
}

/// A number of eight bytes.
#[tactic(auto, unfolding(crate::specs::Spelling::number))]
pub fn put_u64(out: &mut Vec<u8>, n: u64) -> Result<(), AllocError>
    ensures { OnOk result (out.new.items ≡ out.old.items ++ number w64 n) }
{
    out.extend_from_slice(&n.to_be_bytes())?;
    Ok(())
}

/// Bytes behind their number of two bytes.
#[tactic(auto, unfolding(crate::specs::Spelling::text))]
pub fn put_text(out: &mut Vec<u8>, bytes: &[u8]) -> Result<(), AllocError>
    requires { length bytes.now < 2 ^ 16 }
    ensures { OnOk result (out.new.items ≡ out.old.items ++ text bytes.now) }
{
    put_u16(out, bytes.len() as u16)?;
    put_bytes(out, bytes)?;
    Ok(())
}
