ghost use Rattle.std.specs.Prelude.{◌≡◌, ℕ, List, Some, None};
ghost use Rattle.st_protocol.specs.World.{Fault};
ghost use Rattle.st_input.specs.declared.input.Input.{Input};
ghost use Rattle.st_replay.specs.Lines.{world_after};
ghost use Rattle.st_replay.specs.Replay.{Ended, Reported, replay_of};

/// What ends a replay at a line is what ends the world of all its lines, and where a replay has a report, that
/// world goes on.
pub fn replays_end_as_their_worlds()
    ensures ends { (input : Input) (line : ℕ) (fault : Fault) → replay_of input ≡ Ended line fault → (world_after input.deployment input.lines).ended ≡ Some fault }
    ensures goes_on { (input : Input) (text : List ℕ) → replay_of input ≡ Reported text → (world_after input.deployment input.lines).ended ≡ None }
{}
