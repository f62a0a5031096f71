ghost use Rattle.std.specs.Prelude.{◌<◌, length, IfErr};
ghost use Rattle.st_fields.specs.Reading.{Gives, IsRefused};
ghost use Rattle.st_journal.specs.Blocks.{body_at};
ghost use Rattle.st_journal.specs.Gates.{IsGate};

use st_fields::{FieldError, read_bytes, read_u32};

/// What stands at a gate.
pub(crate) enum Gate<'a> {
    /// The closed gate.
    Closed,
    /// An opened gate with a body behind it, and the bytes from the next gate on.
    Open { body: &'a [u8], next: &'a [u8] },
    /// An opened gate that no whole body and further gate follow.
    Broken,
}

/// What stands at the front of these bytes, which are at a gate.
pub(crate) fn gate_at(bytes: &[u8]) -> Gate<'_>
    requires { 0 < length bytes.now }
    ensures { IsGate bytes.now result }
{
    if bytes[0] == 0 {
        return Gate::Closed;
    }
    match read_body(&bytes[1..]) {
        Ok((body, next)) => Gate::Open { body, next },
        Err(_) => Gate::Broken,
    }
}

/// The body behind an opened gate, where it is whole and a further gate follows.
#[tactic(auto, unfolding(crate::specs::Blocks::body_at))]
fn read_body(bytes: &[u8]) -> Result<(&[u8], &[u8]), FieldError>
    ensures gives { Gives (λ x. (x.0.now, x.1.now)) result (body_at bytes.now) }
    ensures free { IfErr result IsRefused }
{
    let (count, rest) = read_u32(bytes)?;
    let (body, next) = read_bytes(rest, count as usize)?;
    if next.is_empty() {
        return Err(FieldError::Refused { left: 0 });
    }
    Ok((body, next))
}
