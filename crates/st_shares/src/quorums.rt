ghost use Rattle.std.specs.Prelude.{◌≡◌, ℕ, ◌+◌, ◌*◌, ◌<◌, ◌≤◌, [], ◌∷◌, ◌++◌, All, IfOk, OnOk, IsOkUnless};
ghost use Rattle.std.specs.Option.{option_copied};
ghost use Rattle.st_fields.specs.declared.error.WordsError.TheVariants as words;
ghost use Rattle.st_protocol.specs.Keeping.{given};
ghost use Rattle.st_protocol.specs.Step as step;
ghost use Rattle.st_protocol.specs.Step.{with_share, signed_at, all_below};
ghost use Rattle.st_state.specs.HereView.{Serve, here_of};
ghost use Rattle.st_state.specs.Writes.{among};

use crate::here::servers;
use crate::same::same_statement;
use crate::slot::entry_of;
use st_fields::{Bytes, Copied, WordsError};
use st_message::{Here, Share};
use st_seal::{Quorum, Signed};
use st_tables::Table;
use st_words::Statement;
use std::alloc::Global;

/// The seals over the statement once this share of it is kept too, by rising index.
#[tactic(auto, unfolding(st_protocol::specs::Step::quorum_of))]
pub fn completed(
    alloc: Global,
    here: &Here,
    row: Option<&Table<Share>>,
    statement: &Statement,
    signed: &Signed,
) -> Result<Quorum, WordsError>
    requires { 3 * here.now.f < 256 }
    ensures quorum { IfOk result (λ quorum. (clients : ℕ) (serve : Serve) → quorum ≡ step.completed (here_of clients serve here.now) (among (option_copied row.entry)) statement.now signed.now) }
    ensures memory { IsOkUnless result words.OutOfMemory }
{
    let quorum = signed_below(alloc, servers(here), row, statement, signed)?;
    Ok(quorum)
}

// The seals over the statement of the first keys.
#[tactic(auto, using(st_protocol::proofs::BelowLaws::all_below_none, st_protocol::proofs::BelowLaws::all_below_more, crate::proofs::SignedLaws::indices_below))]
fn signed_below(
    alloc: Global,
    servers: usize,
    row: Option<&Table<Share>>,
    statement: &Statement,
    signed: &Signed,
) -> Result<Quorum, WordsError>
    requires { servers ≤ 256 }
    ensures quorum { IfOk result (λ quorum. quorum ≡ all_below (signed_at statement.now (with_share (among (option_copied row.entry)) statement.now signed.now)) servers) }
    ensures memory { IsOkUnless result words.OutOfMemory }
{
    let mut quorum = Quorum::new(alloc);
    for key in 0..servers {
        push_signed(alloc, &mut quorum, row, key as u8, statement, signed)?;
    }
    Ok(quorum)
}

// Puts a key's seal over the statement last, if it has one.
fn push_signed(
    alloc: Global,
    quorum: &mut Quorum,
    row: Option<&Table<Share>>,
    index: u8,
    statement: &Statement,
    signed: &Signed,
) -> Result<(), WordsError>
    requires { All (λ s. s.index < index) quorum.old }
    ensures ok { OnOk result (quorum.new ≡ quorum.old ++ signed_at statement.now (with_share (among (option_copied row.entry)) statement.now signed.now) index) }
    ensures memory { IsOkUnless result words.OutOfMemory }
{
    if let Some(seal) = seal_of(row, index as usize, statement, signed) {
        let seal = seal.copy(alloc)?;
        quorum.push(Signed { index, seal })?;
    }
    Ok(())
}

// A key's seal over the statement, if it has one.
#[tactic(auto, using(crate::proofs::SignedLaws::signed_with_share))]
fn seal_of<'a>(
    row: Option<&'a Table<Share>>,
    key: usize,
    statement: &Statement,
    signed: &'a Signed,
) -> Option<&'a Bytes>
    ensures { signed_at statement.now (with_share (among (option_copied row.entry)) statement.now signed.now) key ≡ given (option_copied result) [] (λ seal. record { index = key; seal = seal } ∷ []) }
{
    if signed.index as usize == key {
        return Some(&signed.seal);
    }
    match entry_of(row, key) {
        Some(share) if same_statement(&share.statement, statement) => Some(&share.seal),
        _ => None,
    }
}
