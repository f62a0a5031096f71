ghost use Rattle.std.specs.Prelude.{◌≡◌, List, IfOk, IsOkUnless};
ghost use Rattle.std.specs.List.{All};
ghost use Rattle.st_report.specs.Text.{report};
ghost use Rattle.st_config.specs.Built.{IsBuilt};
ghost use Rattle.st_config.specs.Taken.{IsTaken};
ghost use Rattle.st_input.specs.declared.input.InputLine.{InputLine};
ghost use Rattle.st_world.specs.Standing.{IsStanding};
ghost use Rattle.st_replay.specs.Lines.{IsReplayed, rows_in};
ghost use Rattle.st_replay.specs.Replay.{IsReplay, replay_of};
ghost use Rattle.st_replay.specs.declared.error.ReplayError.TheVariants as errors;

use crate::error::ReplayError;
use crate::lines::{Replay, replay_lines};
use crate::rows::rows_of;
use st_fields::Bytes;
use st_input::Input;
use st_report::report_text;
use st_words::Deployment;
use std::alloc::Global;

/// The report of an input's world: BadReference, Forged, TooMany or TooMuch exactly where that world ends so, with the
/// line that ends it.
pub fn replay(alloc: Global, input: &Input) -> Result<Bytes, ReplayError>
    requires taken { IsTaken input.now.deployment }
    requires built { All (λ x. IsBuilt x.line) input.now.lines }
    ensures replayed { IsReplay result (replay_of input.now) }
{
    let replay = replay_lines(alloc, &input.deployment, &input.lines)?;
    report(alloc, &input.deployment, replay)
}

// The text of the report.
fn report(alloc: Global, d: &Deployment, replay: Replay) -> Result<Bytes, ReplayError>
    requires stands { IsStanding replay.world }
    ensures text { IfOk result (λ text. (lines : List InputLine) → IsReplayed replay d.now lines → text ≡ report (rows_in d.now lines)) }
    ensures memory { IsOkUnless result errors.OutOfMemory }
{
    let rows = rows_of(alloc, d, replay)?;
    let text = report_text(alloc, &rows)?;
    Ok(text)
}
