ghost use Rattle.std.specs.Prelude.{◌≡◌, ◌≤◌, ◌↔◌, ◌<◌, ℕ, List, Some, Option, IsTrue, IsErr, IfOk, OnOk, OnErr, IsOkUnless, min, length, take, drop};
ghost use Rattle.std.specs.Io.{ReadsAtMost};
ghost use Rattle.st_fields.specs.declared.error.WordsError.TheVariants as words;

use crate::plan::Plan;
use crate::source::{Failed, Source};
use st_fields::{Bytes, Seq, WordsError};
use std::alloc::Global;

/// Bytes in memory as a source that never fails.
#[derive(Drop)]
pub struct SureSource {
    bytes: Bytes,
    at: usize,
    ghost inside: { at ≤ length bytes },
}

/// Bytes in memory as a source of which chosen reads fail.
#[derive(Drop)]
pub struct MemorySource {
    source: SureSource,
    plan: Plan,
}

impl SureSource {
    ghost use Rattle.st_io.specs.Memory.{left_of};

    /// A source of these bytes.
    pub fn new(alloc: Global, bytes: &[u8]) -> Result<SureSource, WordsError>
        ensures left { IfOk result (λ s. left_of s ≡ bytes.now) }
        ensures memory { IsOkUnless result words.OutOfMemory }
    {
        Ok(SureSource {
            bytes: Seq::from_slice(alloc, bytes)?,
            at: 0,
        })
    }
}

impl MemorySource {
    ghost use Rattle.st_io.specs.Memory.{memory_left, source_plan};
    ghost use Rattle.st_io.specs.Plans.{begun};

    /// A source of these bytes, of which the reads at the places `fails` fail, counted from 0.
    pub fn new(alloc: Global, bytes: &[u8], fails: &[u32]) -> Result<MemorySource, WordsError>
        ensures left { IfOk result (λ s. memory_left s ≡ bytes.now) }
        ensures plan { IfOk result (λ s. source_plan s ≡ begun fails.now) }
        ensures memory { IsOkUnless result words.OutOfMemory }
    {
        let source = SureSource::new(alloc, bytes)?;
        let plan = Plan::new(alloc, fails)?;
        Ok(MemorySource { source, plan })
    }
}

impl Source for SureSource {
    ghost use Rattle.st_io.specs.Memory.{left_of};
    ghost use Rattle.st_io.specs.Streams.{Gives};

    ghost left = { λ s. Some (left_of s) };

    ghost faults = { λ _. 0 };

    fn read(&mut self, piece: &mut [u8]) -> Result<usize, Failed>
        ensures whole { result ≡ Ok (min (length (left_of self.old)) (length piece.new)) }
        ensures first { IfOk result (λ n. take n piece.new ≡ take n (left_of self.old)) }
        ensures rest { IfOk result (λ n. left_of self.new ≡ drop n (left_of self.old)) }
    {
        let count = copy_front(&self.bytes.as_slice()[self.at..], piece);
        self.at += count;
        Ok(count)
    }
}

impl Source for MemorySource {
    ghost use Rattle.st_io.specs.Memory.{memory_left, source_plan};
    ghost use Rattle.st_io.specs.Plans.{called, fails_next};

    ghost left = { λ s. Some (memory_left s) };

    ghost faults = { λ s. (source_plan s).faults };

    fn read(&mut self, piece: &mut [u8]) -> Result<usize, Failed>
        ensures plan { source_plan self.new ≡ called (source_plan self.old) }
        ensures no_fault { OnOk result ((source_plan self.new).faults ≡ (source_plan self.old).faults) }
        ensures later { (source_plan self.old).faults ≤ (source_plan self.new).faults }
        ensures fails { IsErr result ↔ IsTrue (fails_next (source_plan self.old)) }
        ensures kept { OnErr result (memory_left self.new ≡ memory_left self.old) }
        ensures whole { IfOk result (λ n. n ≡ min (length (memory_left self.old)) (length piece.new)) }
        ensures first { IfOk result (λ n. take n piece.new ≡ take n (memory_left self.old)) }
        ensures rest { IfOk result (λ n. memory_left self.new ≡ drop n (memory_left self.old)) }
    {
        if self.plan.fails() {
            return Err(Failed);
        }
        self.source.read(piece)
    }
}

/// Copies as many bytes as there are and fit to the front of `piece`, and answers how many.
fn copy_front(bytes: &[u8], piece: &mut [u8]) -> usize
    ensures count { result ≡ min (length bytes.now) (length piece.new) }
    ensures front { take result piece.new ≡ take result bytes.now }
{
    let count = bytes.len().min(piece.len());
    piece[..count].copy_from_slice(&bytes[..count]);
    count
}
