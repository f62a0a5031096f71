ghost use Rattle.std.specs.Prelude.{◌≡◌};
ghost use Rattle.st_input.specs.Input.{from_config};
ghost use Rattle.st_input.specs.declared.fault.InputError.TheVariants as errors;

use st_config::ConfigError;
use st_fields::WordsError;

/// What is wrong with an input. Lines are numbered in the whole input, from 1.
#[derive(Clone, Copy, Debug, PartialEq, Eq)]
pub enum InputFault {
    /// The bytes are no UTF-8.
    Utf8,
    /// No line is `---`.
    NoSeparator,
    /// The text before the first line `---` is no header that is taken today.
    Deployment,
    /// This event line is one more than an input has.
    TooManyLines { line: u32 },
    /// This event line has more bytes than one has.
    LongLine { line: u32 },
    /// This line is out of the grammar of event lines.
    Grammar { line: u32 },
    /// This event line is none that is taken today.
    NotBuilt { line: u32 },
}

/// Why an input was not read.
#[derive(Clone, Copy, Debug, PartialEq, Eq)]
pub enum InputError {
    /// The input has this fault, and none that is looked for before it.
    Fault(InputFault),
    /// Memory was refused.
    OutOfMemory,
}

impl From<WordsError> for InputError {
    ghost from_gives = { λ _ e. e ≡ errors.OutOfMemory };

    fn from(_: WordsError) -> InputError {
        InputError::OutOfMemory
    }
}

impl From<ConfigError> for InputError {
    ghost from_gives = { λ d e. e ≡ from_config d };

    fn from(error: ConfigError) -> InputError {
        match error {
            ConfigError::NotTaken => InputError::Fault(InputFault::Deployment),
            ConfigError::OutOfMemory => InputError::OutOfMemory,
        }
    }
}
