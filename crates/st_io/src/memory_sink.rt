ghost use Rattle.std.specs.Prelude.{◌≡◌, ◌≤◌, ◌<◌, ◌↔◌, [], ◌++◌, List, ℕ, Some, IsTrue, IsErr, IfOk, OnErr, IsOkUnless, min, length, take};
ghost use Rattle.st_fields.specs.declared.error.WordsError.TheVariants as words;
ghost use Rattle.st_io.specs.declared.sink.SinkError.TheVariants as sinks;

use crate::plan::Plan;
use crate::sink::{Sink, SinkError};
use st_fields::WordsError;
use std::alloc::Global;

/// Memory as a sink that never fails.
#[derive(Drop)]
pub struct SureSink {
    bytes: Vec<u8>,
    most: usize,
    ghost some: { 1 ≤ most },
}

/// Memory as a sink of which chosen writes fail.
#[derive(Drop)]
pub struct MemorySink {
    sink: SureSink,
    plan: Plan,
}

impl SureSink {
    ghost use Rattle.st_io.specs.Memory.{taken_of, most_of};

    /// An empty sink that takes at most `most` bytes in one call. Takes no memory.
    pub fn new(alloc: Global, most: usize) -> Result<SureSink, WordsError>
        requires { 1 ≤ most }
        ensures empty { IfOk result (λ s. taken_of s ≡ []) }
        ensures most { IfOk result (λ s. most_of s ≡ most) }
        ensures memory { IsOkUnless result words.OutOfMemory }
    {
        Ok(SureSink {
            bytes: Vec::new(alloc),
            most,
        })
    }

    /// The bytes taken so far. Takes no memory.
    pub fn taken(&self) -> &[u8]
        ensures { result.now ≡ taken_of self.now }
    {
        self.bytes.as_slice()
    }
}

impl MemorySink {
    ghost use Rattle.st_io.specs.Memory.{memory_taken, memory_most, sink_plan};
    ghost use Rattle.st_io.specs.Plans.{begun};

    /// An empty sink that takes at most `most` bytes in one call, of which the writes at the places
    /// `fails` fail, counted from 0.
    pub fn new(alloc: Global, most: usize, fails: &[u32]) -> Result<MemorySink, WordsError>
        requires { 1 ≤ most }
        ensures empty { IfOk result (λ s. memory_taken s ≡ []) }
        ensures most { IfOk result (λ s. memory_most s ≡ most) }
        ensures plan { IfOk result (λ s. sink_plan s ≡ begun fails.now) }
        ensures memory { IsOkUnless result words.OutOfMemory }
    {
        let sink = SureSink::new(alloc, most)?;
        let plan = Plan::new(alloc, fails)?;
        Ok(MemorySink { sink, plan })
    }

    /// The bytes taken so far. Takes no memory.
    pub fn taken(&self) -> &[u8]
        ensures { result.now ≡ memory_taken self.now }
    {
        self.sink.taken()
    }
}

impl Sink for SureSink {
    ghost use Rattle.st_io.specs.Memory.{taken_of, most_of};

    ghost taken = { λ s. Some (taken_of s) };

    ghost faults = { λ _. 0 };

    fn write(&mut self, piece: &[u8]) -> Result<usize, SinkError>
        ensures most { most_of self.new ≡ most_of self.old }
        ensures whole { IfOk result (λ n. n ≡ min (most_of self.old) (length piece.now)) }
        ensures added { IfOk result (λ n. taken_of self.new ≡ taken_of self.old ++ take n piece.now) }
        ensures kept { OnErr result (taken_of self.new ≡ taken_of self.old) }
        ensures memory { IsOkUnless result sinks.OutOfMemory }
    {
        let count = self.most.min(piece.len());
        self.bytes.extend_from_slice(&piece[..count])?;
        Ok(count)
    }
}

impl Sink for MemorySink {
    ghost use Rattle.st_io.specs.Memory.{memory_taken, memory_most, sink_plan};
    ghost use Rattle.st_io.specs.Plans.{called, fails_next};

    ghost taken = { λ s. Some (memory_taken s) };

    ghost faults = { λ s. (sink_plan s).faults };

    fn write(&mut self, piece: &[u8]) -> Result<usize, SinkError>
        ensures plan { sink_plan self.new ≡ called (sink_plan self.old) }
        ensures later { (sink_plan self.old).faults ≤ (sink_plan self.new).faults }
        ensures most { memory_most self.new ≡ memory_most self.old }
        ensures fails { result ≡ Err sinks.Failed ↔ IsTrue (fails_next (sink_plan self.old)) }
        ensures whole { IfOk result (λ n. n ≡ min (memory_most self.old) (length piece.now)) }
        ensures added { IfOk result (λ n. memory_taken self.new ≡ memory_taken self.old ++ take n piece.now) }
        ensures kept { OnErr result (memory_taken self.new ≡ memory_taken self.old) }
    {
        if self.plan.fails() {
            return Err(SinkError::Failed);
        }
        self.sink.write(piece)
    }
}
