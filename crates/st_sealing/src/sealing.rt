ghost use Rattle.std.specs.Prelude.{◌≡◌, ◌<◌, IfOk, IsOkUnless};
ghost use Rattle.st_fields.specs.declared.error.WordsError.TheVariants as words;
ghost use Rattle.st_sealing.specs.Sealing.{sealed_bytes, pen_by};

use crate::ranges::keeps_ranges;
use st_fields::{Bytes, Seq, WordsError};
use st_seal::Sealer;
use st_words::{Statement, statement_bytes};
use std::alloc::Global;

/// A party's seal over a statement of its deployment, with this leaf. A statement that doesn't keep its
/// ranges is sealed as no bytes: none such is ever to be made.
pub fn seal_statement<S: Sealer>(
    alloc: Global,
    sealer: &mut S,
    id: u64,
    leaf: u32,
    statement: &Statement,
) -> Result<Bytes, WordsError>
    requires { leaf < (S.pen sealer.old).capacity }
    ensures sealed { IfOk result (λ seal. seal ≡ pen_by (S.pen sealer.old) id leaf statement.now) }
    ensures pen { S.pen sealer.new ≡ S.pen sealer.old }
    ensures memory { IsOkUnless result words.OutOfMemory }
{
    let bytes = bytes_to_seal(alloc, id, statement)?;
    let seal = match sealer.seal(alloc, leaf, bytes.as_slice()) {
        Ok(seal) => seal,
        Err(_) => return Err(WordsError::OutOfMemory),
    };
    Ok(seal)
}

#[tactic(auto, using(crate::proofs::RangesLaws::ranges_kept), unfolding(crate::specs::Sealing::sealed_bytes))]
fn bytes_to_seal(alloc: Global, id: u64, statement: &Statement) -> Result<Bytes, WordsError>
    ensures bytes { IfOk result (λ bytes. bytes ≡ sealed_bytes id statement.now) }
    ensures memory { IsOkUnless result words.OutOfMemory }
{
    if !keeps_ranges(statement) {
        return Ok(Seq::new(alloc));
    }
    let bytes = statement_bytes(alloc, id, statement)?;
    Ok(bytes)
}
