//! The bytes of statements.

ghost use Rattle.std.specs.Prelude.{◌≡◌, ◌++◌, ◌<◌, ◌^◌, [], ℕ, List, OnOk, IfOk, IsOkUnless};
ghost use Rattle.st_fields.specs.declared.error.WordsError.TheVariants as words;
ghost use Rattle.st_fields.specs.Reading.{Gives, Answers, whole};
ghost use Rattle.st_words.specs.declared.statement.Statement.{Statement};
ghost use Rattle.st_words.specs.Ranges.{KeepsStatement, FitsStatement};
ghost use Rattle.st_words.specs.Spelling.{core_spelling, statement_spelling};
ghost use Rattle.st_words.specs.Reading.{fields_at, core_at, statement_at};

use crate::codec::fields::{
    read_accept, read_client_update, read_global_union, read_global_vc, read_local_union,
    read_local_vc, read_prepare, read_proposal, read_reply,
};
use crate::codec::put_fields::put_fields;
use crate::codec::report::{read_global_report, read_local_report};
use crate::kind::StatementKind;
use crate::limits::ReportBounds;
use crate::statement::Statement;
use st_fields::{
    Bytes, FieldError, Numbered, Seq, WordsError, put_byte, put_bytes, put_u64, read_kind,
    read_mark, read_u64, read_whole,
};
use std::alloc::{AllocError, Global};

const STATEMENT_MARK: [u8; 8] = *b"STEWARD1";

const ALL_KINDS: [StatementKind; 11] = [
    StatementKind::Prepare,
    StatementKind::Proposal,
    StatementKind::Accept,
    StatementKind::LocalVc,
    StatementKind::GlobalVc,
    StatementKind::LocalReport,
    StatementKind::GlobalReport,
    StatementKind::LocalUnion,
    StatementKind::GlobalUnion,
    StatementKind::Reply,
    StatementKind::ClientUpdate,
];

fn read_fields(
    alloc: Global,
    kind: StatementKind,
    bytes: &[u8],
) -> Result<(Statement, &[u8]), FieldError>
    ensures { Gives (λ x. (x.0, x.1.now)) result (fields_at kind bytes.now) }
{
    match kind {
        StatementKind::Prepare => read_prepare(alloc, bytes),
        StatementKind::Proposal => read_proposal(alloc, bytes),
        StatementKind::Accept => read_accept(alloc, bytes),
        StatementKind::LocalVc => read_local_vc(bytes),
        StatementKind::GlobalVc => read_global_vc(bytes),
        StatementKind::LocalReport => read_local_report(alloc, &ReportBounds::any(), bytes),
        StatementKind::GlobalReport => read_global_report(alloc, &ReportBounds::any(), bytes),
        StatementKind::LocalUnion => read_local_union(alloc, bytes),
        StatementKind::GlobalUnion => read_global_union(alloc, bytes),
        StatementKind::Reply => read_reply(alloc, bytes),
        StatementKind::ClientUpdate => read_client_update(alloc, bytes),
    }
}

/// The core of a statement of one of `kinds`: with another kind the kind is the refused field.
#[tactic(auto, unfolding(crate::specs::Reading::core_at))]
pub fn read_core<'a>(
    alloc: Global,
    kinds: &[StatementKind],
    bytes: &'a [u8],
) -> Result<(Statement, &'a [u8]), FieldError>
    ensures { Gives (λ x. (x.0, x.1.now)) result (core_at kinds.now bytes.now) }
{
    let (kind, rest) = read_kind(bytes, kinds)?;
    read_fields(alloc, kind, rest)
}

/// The core of a statement. Where memory is refused, a part of it may stand in `out`.
#[tactic(auto, unfolding(crate::specs::Spelling::core_spelling))]
pub fn put_core(out: &mut Vec<u8>, statement: &Statement) -> Result<(), AllocError>
    requires { KeepsStatement statement.now }
    ensures { OnOk result (out.new.items ≡ out.old.items ++ core_spelling statement.now) }
{
    put_byte(out, statement.kind().number())?;
    put_fields(out, statement)?;
    Ok(())
}

#[tactic(auto, unfolding(crate::specs::Spelling::statement_spelling))]
fn put_statement(out: &mut Vec<u8>, id: u64, statement: &Statement) -> Result<(), AllocError>
    requires { KeepsStatement statement.now }
    ensures { OnOk result (out.new.items ≡ out.old.items ++ statement_spelling id statement.now) }
{
    put_bytes(out, &STATEMENT_MARK)?;
    put_u64(out, id)?;
    put_core(out, statement)?;
    Ok(())
}

/// The bytes that a party of the deployment `id` seals.
pub fn statement_bytes(alloc: Global, id: u64, statement: &Statement) -> Result<Bytes, WordsError>
    requires { KeepsStatement statement.now }
    ensures spelled { IfOk result (λ bytes. bytes ≡ statement_spelling id statement.now) }
    ensures memory { IsOkUnless result words.OutOfMemory }
{
    let mut out = Vec::new(alloc);
    put_statement(&mut out, id, statement)?;
    Ok(Seq::from_vec(out))
}

#[tactic(auto, unfolding(crate::specs::Reading::statement_at))]
fn read_front(alloc: Global, bytes: &[u8]) -> Result<((u64, Statement), &[u8]), FieldError>
    ensures { Gives (λ x. (x.0, x.1.now)) result (statement_at bytes.now) }
{
    let rest = read_mark(bytes, &STATEMENT_MARK)?;
    let (id, rest) = read_u64(rest)?;
    let (statement, rest) = read_core(alloc, &ALL_KINDS, rest)?;
    Ok(((id, statement), rest))
}

#[tactic(auto, unfolding(st_fields::specs::Reading::whole))]
fn read_all(alloc: Global, bytes: &[u8]) -> Result<(u64, Statement), WordsError>
    ensures { Answers result (whole statement_at bytes.now) }
{
    read_whole(bytes, read_front(alloc, bytes))
}

/// The statement whose bytes these are, and the id of its deployment. Malformed where the bytes are
/// no statement's: `place` is the offset of the first field that is missing, cut short or out of its
/// range, or the end of the statement where bytes follow it.
pub fn read_statement(alloc: Global, bytes: &[u8]) -> Result<(u64, Statement), WordsError>
    // What is read is spelled so, each byte of it.
    ensures found { IfOk result (λ x. (bytes.now ≡ statement_spelling x.0 x.1) × KeepsStatement x.1 × FitsStatement x.1) }
    // What is spelled so is read, unless memory is refused.
    ensures only { (id : ℕ) (s : Statement) → id < 2 ^ 64 → KeepsStatement s → FitsStatement s → bytes.now ≡ statement_spelling id s → Answers result (Ok (id, s)) }
    // Which fault it is.
    ensures exact { Answers result (whole statement_at bytes.now) }
{
    read_all(alloc, bytes)
}

/// No statement's bytes are a proper front of another's, or of its own with more behind them.
pub fn no_proper_prefix()
    ensures { (i j : ℕ) (s t : Statement) (rest : List ℕ) → i < 2 ^ 64 → j < 2 ^ 64 → KeepsStatement s → FitsStatement s → KeepsStatement t → FitsStatement t → statement_spelling i s ++ rest ≡ statement_spelling j t → (i ≡ j) × (s ≡ t) × (rest ≡ []) }
{}

/// Two statements, or one statement of two deployments, have different bytes.
pub fn one_statement()
    ensures { (i j : ℕ) (s t : Statement) → i < 2 ^ 64 → j < 2 ^ 64 → KeepsStatement s → FitsStatement s → KeepsStatement t → FitsStatement t → statement_spelling i s ≡ statement_spelling j t → (i ≡ j) × (s ≡ t) }
{}
