ghost use Rattle.std.specs.Prelude.{◌≡◌, ◌≢◌, ◌≤◌, ◌<◌, ◌+◌, ℕ, List, Some, IfOk, OnOk, OnErr, length, vec_len};
ghost use Rattle.st_io.specs.Causes.{Rose};
ghost use Rattle.st_io.specs.Streams.{Adds, AddsFront, AddsSome, LosesFew, ReadsAll, ReadsSome};
ghost use Rattle.st_io.specs.declared.whole.ReadError.TheVariants as reads;
ghost use Rattle.st_io.specs.declared.sink.SinkError.TheVariants as sinks;

use crate::sink::{Sink, SinkError};
use crate::source::{Failed, Source};
use st_fields::{Bytes, Seq};
use std::alloc::{AllocError, Global};

/// How many bytes are asked for at once.
const PIECE: usize = 4_096;

/// Why a source was not read to its end.
#[derive(Clone, Copy, Debug, PartialEq, Eq)]
pub enum ReadError {
    /// A read failed.
    Failed,
    /// More bytes came than the limit.
    TooLong,
    /// Memory was refused.
    OutOfMemory,
}

impl From<Failed> for ReadError {
    ghost from_gives = { λ _ e. e ≡ reads.Failed };

    fn from(_: Failed) -> ReadError {
        ReadError::Failed
    }
}

impl From<AllocError> for ReadError {
    ghost from_gives = { λ _ e. e ≡ reads.OutOfMemory };

    fn from(_: AllocError) -> ReadError {
        ReadError::OutOfMemory
    }
}

/// All bytes of a source, read in pieces to its end; TooLong exactly where there are more than
/// `limit`, of which one is then read and no further. Failed comes only where the source's count of
/// faults rose.
pub fn read_all<S: Source>(alloc: Global, source: &mut S, limit: usize) -> Result<Bytes, ReadError>
    ensures within { IfOk result (λ bytes. length bytes ≤ limit) }
    ensures no_fault { OnOk result (S.faults source.new ≡ S.faults source.old) }
    ensures told { (all : List ℕ) → S.left source.old ≡ Some all → ReadsAll all limit result (S.left source.new) }
    ensures later { S.faults source.old ≤ S.faults source.new }
    ensures failed { result ≡ Err reads.Failed → Rose (S.faults source.old) (S.faults source.new) }
{
    let mut bytes = Vec::new(alloc);
    let mut buffer = [0; PIECE];
    while bytes.len() <= limit {
        let size = piece_size(limit - bytes.len());
        let count = read_more(source, &mut buffer[..size], &mut bytes)?;
        if count == 0 {
            return Ok(Seq::from_vec(bytes));
        }
    }
    Err(ReadError::TooLong)
}

/// How many bytes to ask for where `room` are wanted: one more shows that there are too many.
fn piece_size(room: usize) -> usize
    ensures some { 1 ≤ result }
    ensures piece { result ≤ PIECE }
    ensures one_more { result ≤ room + 1 }
{
    if room < PIECE { room + 1 } else { PIECE }
}

/// Reads a piece, which has room, to the end of `bytes`, and answers how many bytes came: none only at
/// the end.
fn read_more<S: Source>(
    source: &mut S,
    piece: &mut [u8],
    bytes: &mut Vec<u8>,
) -> Result<usize, ReadError>
    requires { 0 < length piece.old }
    ensures told { IfOk result (λ count. (left : List ℕ) → S.left source.old ≡ Some left → ReadsSome left (S.left source.new) bytes.old.items bytes.new.items) }
    ensures long { IfOk result (λ count. vec_len bytes.new ≡ vec_len bytes.old + count) }
    ensures few { IfOk result (λ count. count ≤ length piece.old) }
    ensures gone { OnErr result ((left : List ℕ) → S.left source.old ≡ Some left → LosesFew left (S.left source.new) (length piece.old)) }
    ensures kept { result ≡ Err reads.Failed → S.left source.new ≡ S.left source.old }
    ensures no_fault { OnOk result (S.faults source.new ≡ S.faults source.old) }
    ensures later { S.faults source.old ≤ S.faults source.new }
    ensures failed { result ≡ Err reads.Failed → Rose (S.faults source.old) (S.faults source.new) }
    ensures short { result ≢ Err reads.TooLong }
{
    let count = source.read(piece)?;
    bytes.extend_from_slice(&piece[..count])?;
    Ok(count)
}

/// Writes all of `bytes`. An error leaves some of them written, from the front; Failed comes only where
/// the sink's count of faults rose.
pub fn write_all<K: Sink>(sink: &mut K, bytes: &[u8]) -> Result<(), SinkError>
    ensures all { OnOk result (Adds (K.taken sink.old) (K.taken sink.new) bytes.now) }
    ensures no_fault { OnOk result (K.faults sink.new ≡ K.faults sink.old) }
    ensures front { OnErr result (AddsFront (K.taken sink.old) (K.taken sink.new) bytes.now) }
    ensures later { K.faults sink.old ≤ K.faults sink.new }
    ensures failed { result ≡ Err sinks.Failed → Rose (K.faults sink.old) (K.faults sink.new) }
{
    let mut rest = bytes;
    while !rest.is_empty() {
        rest = write_some(sink, rest)?;
    }
    Ok(())
}

/// Writes some of `bytes`, which is not empty, and answers the bytes after them.
fn write_some<'a, K: Sink>(sink: &mut K, bytes: &'a [u8]) -> Result<&'a [u8], SinkError>
    requires { 0 < length bytes.now }
    ensures some { IfOk result (λ rest. AddsSome (K.taken sink.old) (K.taken sink.new) bytes.now rest.now) }
    ensures fewer { IfOk result (λ rest. length rest.now < length bytes.now) }
    ensures kept { OnErr result (K.taken sink.new ≡ K.taken sink.old) }
    ensures no_fault { OnOk result (K.faults sink.new ≡ K.faults sink.old) }
    ensures later { K.faults sink.old ≤ K.faults sink.new }
    ensures failed { result ≡ Err sinks.Failed → Rose (K.faults sink.old) (K.faults sink.new) }
{
    let count = sink.write(bytes)?;
    Ok(&bytes[count..])
}
