ghost use Rattle.std.specs.Prelude.{◌≡◌, ℕ, IsTrue, List};
ghost use Rattle.st_registers.specs.Advances.{IsWell, Advances};
ghost use Rattle.st_registers.specs.FlatWorld.{FlatWorld, empty, Steps, OrdersOneValue};
ghost use Rattle.st_registers.specs.Steps.{FlatStep, IsRun, LogsOneValue};
ghost use Rattle.st_registers.specs.Tests.{Tests, IsChosen, start};

/// In a run of flat steps from where nothing has happened, all pairs that are ever ordered have one
/// value for one number: of flat worlds as tests over any values and members, and of those that `Flat`
/// holds.
pub fn one_value_per_number<V>()
    ensures tests { (members : List ℕ) (worlds : List (ℕ → Tests V)) →
        IsRun FlatStep (λ _. start members) worlds → LogsOneValue worlds }
    ensures data { (members : ℕ) (worlds : List FlatWorld) → IsRun Steps (empty members) worlds → OrdersOneValue worlds }
{}

/// Tests advance by each flat step, and by steps of steps; where they are well, one value is chosen,
/// and what the log once had it has for good.
pub fn advances<V>()
    ensures start { (members : List ℕ) → IsWell (start {V = V} members) }
    ensures step { (old new : ℕ → Tests V) → ((n : ℕ) → IsWell (old n)) → FlatStep old new →
        (n : ℕ) → Advances (old n) (new n) }
    ensures transitive { (a b c : Tests V) → Advances a b → Advances b c → Advances a c }
    ensures one_chosen { (t : Tests V) (u v : V) → IsWell t → IsChosen t u → IsChosen t v → u ≡ v }
    ensures one_logged { (old new : Tests V) (u v : V) → Advances old new →
        IsTrue (old.logged u) → IsTrue (new.logged v) → u ≡ v }
{}
