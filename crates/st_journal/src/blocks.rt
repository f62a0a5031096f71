//! Reading a whole file: its bodies, and where the closed gate stands.

ghost use Rattle.std.specs.Prelude.{◌≡◌, ◌<◌, ◌++◌, ◌∷◌, [], List, ℕ, length, IfOk, IfErr, OnOk, IsOkUnless};
ghost use Rattle.st_journal.specs.declared.error.JournalError.TheVariants as journals;
ghost use Rattle.st_journal.specs.Blocks.{mark, bodies_of, IsFile, IsFaultOf};

use crate::error::JournalError;
use crate::gate::{Gate, gate_at};
use st_fields::{Bytes, FieldError, Seq, read_mark};
use std::alloc::Global;

/// The bodies of a journal, in order.
pub type Bodies = Seq<Bytes>;

/// What every file of more than 9 bytes begins with.
pub(crate) const MARK: &[u8] = b"STJRNL01";

/// The bodies of a file of more than 9 bytes, and the offset of its closed gate.
pub(crate) fn read_file(alloc: Global, file: &[u8]) -> Result<(Bodies, u64), JournalError>
    requires { 9 < length file.now }
    ensures found { IfOk result (λ x. (junk : List ℕ) × IsFile x.0 x.1 junk file.now) }
    ensures fault { IfErr result (IsFaultOf (bodies_of file.now)) }
{
    match read_mark(file, MARK) {
        Ok(rest) => read_blocks(alloc, file, rest),
        Err(FieldError::Refused { left }) => Err(JournalError::NotJournal {
            place: file.len().saturating_sub(left) as u64,
        }),
        Err(FieldError::OutOfMemory) => Err(JournalError::OutOfMemory),
    }
}

/// The bodies from the first gate of a file on, and the offset of its closed gate.
fn read_blocks(alloc: Global, file: &[u8], first: &[u8]) -> Result<(Bodies, u64), JournalError>
    requires marked { file.now ≡ mark ++ first.now }
    requires long { 9 < length file.now }
    ensures found { IfOk result (λ x. (junk : List ℕ) × IsFile x.0 x.1 junk file.now) }
    ensures fault { IfErr result (IsFaultOf (bodies_of file.now)) }
{
    let mut bodies = Seq::new(alloc);
    let mut rest = first;
    loop {
        let offset = file.len().saturating_sub(rest.len()) as u64;
        match gate_at(rest) {
            Gate::Closed => return Ok((bodies, offset)),
            Gate::Open { body, next } => {
                push_body(alloc, &mut bodies, body)?;
                rest = next;
            }
            Gate::Broken => return Err(JournalError::NotJournal { place: offset }),
        }
    }
}

/// Puts a copy of a body last.
fn push_body(alloc: Global, bodies: &mut Bodies, body: &[u8]) -> Result<(), JournalError>
    ensures ok { OnOk result (bodies.new ≡ bodies.old ++ body.now ∷ []) }
    ensures memory { IsOkUnless result journals.OutOfMemory }
{
    let copy = Vec::from_slice(alloc, body)?;
    match bodies.push(Seq::from_vec(copy)) {
        Ok(()) => Ok(()),
        Err(_) => Err(JournalError::OutOfMemory),
    }
}
