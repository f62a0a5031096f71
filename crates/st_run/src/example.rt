ghost use Rattle.std.specs.Prelude.{◌≡◌, ℕ, List, []};
ghost use Rattle.st_protocol.specs.World.{BadReference};
ghost use Rattle.st_run.specs.Example.{idle_rows, rows_passed, small_deployment, small_input, small_lines, small_rows};
ghost use Rattle.st_replay.specs.Replay.{Ended, replay_of};

/// The definitions, computed, whatever the id and the seed are. In the world where messages are passed as they are and
/// seals are keyed, so that no seal is computed, an update of the one client through the one server comes to the rows
/// `small_rows`, and no event lines come to `idle_rows`. In the world of bytes, which the program runs, an update of
/// a client that does not exist ends the world at its line.
pub fn a_small_world()
    ensures runs { (id : ℕ) (seed : List ℕ) → rows_passed (small_deployment id seed) (small_lines 0) ≡ small_rows id }
    ensures rests { (id : ℕ) (seed : List ℕ) → rows_passed (small_deployment id seed) [] ≡ idle_rows id }
    ensures ends { (id : ℕ) (seed : List ℕ) → replay_of (small_input id seed 1) ≡ Ended 9 BadReference }
{}
