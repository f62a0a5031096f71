ghost use Rattle.std.specs.Prelude.{◌≡◌, [], ◌∷◌, ◌++◌, List, IfOk, IfErr, OnOk, IsOkUnless};
ghost use Rattle.std.specs.List.{All};
ghost use Rattle.st_words.specs.declared.deployment.Deployment.{Deployment};
ghost use Rattle.st_config.specs.Built.{IsBuilt};
ghost use Rattle.st_protocol.specs.Report.{done_words};
ghost use Rattle.st_config.specs.Taken.{IsTaken};
ghost use Rattle.st_input.specs.declared.input.InputLine.{InputLine};
ghost use Rattle.st_world.specs.Standing.{IsStanding};
ghost use Rattle.st_replay.specs.declared.error.ReplayError.TheVariants as errors;
ghost use Rattle.st_replay.specs.Ends.{IsEnd, end_in, ended_at};
ghost use Rattle.st_replay.specs.Lines.{IsReplayed};

use crate::error::ReplayError;
use st_fields::Seq;
use st_input::{InputLine, InputLines};
use st_message::Outcome;
use st_report::{DoneRow, DoneRows, DoneWords};
use st_schedule::Done;
use st_words::Deployment;
use st_world::{World, WorldError};
use std::alloc::Global;

/// A world, and what the event lines that led to it came to.
#[derive(Drop)]
pub struct Replay {
    pub world: World,
    pub done: DoneRows,
}

/// The world that an input's event lines lead to, one by one, in a deployment that is taken today.
///
/// BadReference, Forged, TooMany and TooMuch come only where the definitions' world ends so, with the line that ends
/// it.
pub fn replay_lines(
    alloc: Global,
    d: &Deployment,
    lines: &InputLines,
) -> Result<Replay, ReplayError>
    requires taken { IsTaken d.now }
    requires built { All (λ x. IsBuilt x.line) lines.now }
    ensures replayed { IfOk result (λ replay. IsReplayed replay d.now lines.now) }
    ensures ended { IfErr result (λ error. IsEnd error (end_in d.now lines.now)) }
{
    let mut replay = Replay::new(alloc, d)?;
    for line in lines.as_slice() {
        match replay.take(alloc, line) {
            Ok(()) => {}
            Err(error) => return Err(error),
        }
    }
    Ok(replay)
}

impl Replay {
    // The world before the first line.
    fn new(alloc: Global, d: &Deployment) -> Result<Replay, ReplayError>
        requires { IsTaken d.now }
        ensures replayed { IfOk result (λ replay. IsReplayed replay d.now []) }
        ensures stands { IfOk result (λ replay. IsStanding replay.world) }
        ensures memory { IsOkUnless result errors.OutOfMemory }
    {
        let Ok(world) = World::new(alloc, d) else {
            return Err(ReplayError::OutOfMemory);
        };
        Ok(Replay {
            world,
            done: Seq::new(alloc),
        })
    }

    // One event line more.
    fn take(&mut self, alloc: Global, line: &InputLine) -> Result<(), ReplayError>
        requires stands { IsStanding self.old.world }
        requires built { IsBuilt line.now.line }
        ensures replayed { OnOk result ((d : Deployment) (before : List InputLine) → IsReplayed self.old d before → IsReplayed self.new d (before ++ line.now ∷ [])) }
        ensures stands { OnOk result (IsStanding self.new.world) }
        ensures ended { IfErr result (λ error. (d : Deployment) (before more : List InputLine) → IsReplayed self.old d before → IsEnd error (end_in d (before ++ line.now ∷ more))) }
    {
        match self.world.step(alloc, line.number, &line.line) {
            Ok(done) => {
                let words = words_of(done);
                self.done.push(DoneRow {
                    line: line.number,
                    words,
                })?;
                Ok(())
            }
            Err(error) => Err(ended_at(line.number, error)),
        }
    }
}

// The error of this line.
fn ended_at(line: u32, error: WorldError) -> ReplayError
    ensures { result ≡ ended_at line error }
{
    match error {
        WorldError::BadReference { line } => ReplayError::BadReference { line },
        WorldError::Forged { line, place } => ReplayError::Forged { line, place },
        WorldError::TooMany { count } => ReplayError::TooMany { line, count },
        WorldError::TooMuch { bytes } => ReplayError::TooMuch { line, bytes },
        WorldError::OutOfMemory => ReplayError::OutOfMemory,
    }
}

// What a line came to, as the report says it.
#[tactic(auto, unfolding(st_protocol::specs::Report::done_words))]
fn words_of(done: Done) -> DoneWords
    ensures { result ≡ done_words done }
{
    match done {
        Done::Sent(message) => DoneWords::Sent(message),
        Done::SealsSpent(used) => DoneWords::SealsSpent(used),
        Done::Outcome(Outcome::Did) => DoneWords::Did,
        Done::Outcome(Outcome::Ignored(reason)) => DoneWords::Ignored(reason),
        Done::Stopped => DoneWords::Stopped,
        Done::Full => DoneWords::Full,
        Done::Faulty => DoneWords::Faulty,
        Done::Flowed {
            pairs,
            did,
            ignored,
        } => DoneWords::Flowed {
            pairs,
            did,
            ignored,
        },
        Done::Dropped(pairs) => DoneWords::Dropped(pairs),
        Done::Set => DoneWords::Set,
        Done::Running => DoneWords::Running,
        Done::Shown(bytes) => DoneWords::Shown(bytes),
    }
}
