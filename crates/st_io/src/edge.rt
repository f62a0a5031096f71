ghost use Rattle.std.specs.Prelude.{◌≡◌, None};
ghost use Rattle.std.specs.declared.option.Option.{Option};

use crate::sink::{Sink, SinkError};
use crate::source::{Failed, Source};
use std::io::{Read, Stdin, Stdout, Write};

/// Standard input. It tells nothing of its bytes, and each error raises its count.
#[derive(Drop)]
pub struct StdSource {
    input: Stdin,
    faults: u64,
}

/// Standard output. It tells nothing of its bytes, and each error raises its count.
#[derive(Drop)]
pub struct StdSink {
    output: Stdout,
    faults: u64,
}

impl StdSource {
    /// No fault has come yet.
    pub fn new(input: Stdin) -> StdSource
        ensures { ⟦<StdSource as Source>⟧.faults result ≡ 0 }
    {
        StdSource { input, faults: 0 }
    }
}

impl StdSink {
    /// No fault has come yet.
    pub fn new(output: Stdout) -> StdSink
        ensures { ⟦<StdSink as Sink>⟧.faults result ≡ 0 }
    {
        StdSink { output, faults: 0 }
    }
}

impl Source for StdSource {
    ghost left = { λ _. None };

    ghost faults = { λ s. s.faults };

    fn read(&mut self, piece: &mut [u8]) -> Result<usize, Failed> {
        match self.input.read(piece) {
            Ok(count) => Ok(count),
            Err(_) => {
                self.faults = self.faults.saturating_add(1);
                Err(Failed)
            }
        }
    }
}

impl Sink for StdSink {
    ghost taken = { λ _. None };

    ghost faults = { λ s. s.faults };

    fn write(&mut self, piece: &[u8]) -> Result<usize, SinkError> {
        match self.output.write(piece) {
            Ok(count) if count > 0 || piece.is_empty() => Ok(count),
            _ => {
                self.faults = self.faults.saturating_add(1);
                Err(SinkError::Failed)
            }
        }
    }
}
