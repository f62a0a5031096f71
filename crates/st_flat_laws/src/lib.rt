//! A flat world that advances takes flat steps: each law is the contract of a function that has nothing to do.
#![tactic(auto)]

ghost use Rattle.std.specs.Prelude.{ℕ, ◌<◌, IsTrue, List};
ghost use Rattle.st_words.specs.declared.value.Value.{Value};
ghost use Rattle.st_registers.specs.Advances.{Advances};
ghost use Rattle.st_registers.specs.Steps.{FlatStep};
ghost use Rattle.st_registers.specs.Tests.{Tests};
ghost use Rattle.st_flat_laws.specs.Flat.{Along, LeadsFlat, ProposesWithin};

/// Where a flat world advances at each number to one in which only finitely much is proposed, flat steps in order lead from
/// it to one alike to that (`order`): first all that is closed, in one step; then number by number proposals, each of a view
/// not below that of the one before, then acceptances, then orders. Steps in order are a run of flat steps (`steps`).
pub fn advances_are_flat_steps()
    ensures order { (old new : ℕ → Tests Value) (numbers top : ℕ) (values : List Value) → ((n : ℕ) → Advances (old n) (new n)) →
        ((n view : ℕ) (v : Value) → IsTrue ((new n).proposed view v) → n < numbers) →
        ((n : ℕ) → ProposesWithin top values (new n)) → LeadsFlat old new }
    ensures steps { (old new : ℕ → Tests Value) (leads : LeadsFlat old new) → Along FlatStep old (leads.before leads.numbers) }
{}
