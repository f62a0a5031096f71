//! Kinds that stand as a number of one byte.

ghost use Rattle.std.specs.Prelude.{◌≡◌, ◌==◌, ℕ, find, IfErr};
ghost use Rattle.st_fields.specs.Reading.{Gives, IsRefused, kind_at};

use crate::error::FieldError;
use crate::reading::read_byte;

/// A kind that has a number of one byte.
pub trait Numbered: Copy {
    ghost number_of: { Self → ℕ };

    /// Its number.
    fn number(self) -> u8
        ensures { result ≡ number_of self };
}

fn kind_of_number<K: Numbered>(kinds: &[K], number: u8) -> Option<K>
    ensures { result ≡ find (λ kind. K.number_of kind == number) kinds.now }
{
    kinds.iter().copied().find(|kind| kind.number() == number)
}

/// One of `kinds`, by its number.
#[tactic(auto, unfolding(crate::specs::Reading::kind_at))]
pub fn read_kind<'a, K: Numbered>(bytes: &'a [u8], kinds: &[K]) -> Result<(K, &'a [u8]), FieldError>
    ensures gives { Gives (λ x. (x.0, x.1.now)) result (kind_at K.number_of kinds.now bytes.now) }
    ensures free { IfErr result IsRefused }
{
    let (number, rest) = read_byte(bytes)?;
    match kind_of_number(kinds, number) {
        Some(kind) => Ok((kind, rest)),
        None => Err(FieldError::Refused { left: bytes.len() }),
    }
}
