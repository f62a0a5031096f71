//! Counting over lists, majorities, and quorums that overlap: laws alone, each the contract of a
//! function with an empty body. The lemmas behind them are public too.
#![tactic(auto)]

ghost use Rattle.std.specs.Prelude.{◌≡◌, ◌↔◌, ℕ, ◌+◌, ◌*◌, ◌/◌, ◌<◌, ◌≤◌, ◌&&◌, not, Bool, IsTrue, List, length, filter, count_by};
ghost use Rattle.st_counts.specs.Counts.{count, Has, AllOf, Distinct, HasMajority, AllBut, Found, Shared, numbers_below};

/// What one or two tests count over a list.
pub fn counting<T>()
    ensures found { (p : T → Bool) (xs : List T) → 0 < count p xs → Found p xs }
    ensures mono { (p q : T → Bool) (xs : List T) → AllOf (λ x. IsTrue (p x) → IsTrue (q x)) xs →
        count p xs ≤ count q xs }
    ensures disjoint { (p q : T → Bool) (xs : List T) → AllOf (λ x. ¬ (IsTrue (p x) × IsTrue (q x))) xs →
        count p xs + count q xs ≤ length xs }
    ensures both { (p q : T → Bool) (xs : List T) →
        count p xs + count q xs ≤ length xs + count (λ x. p x && q x) xs }
    ensures filtered { (p q : T → Bool) (xs : List T) → count p (filter q xs) ≡ count (λ x. q x && p x) xs }
    ensures as_std { (p : T → Bool) (xs : List T) → count p xs ≡ count_by p xs }
{}

/// Distinct elements of a list that all pass are no more than those of the list that pass.
pub fn distinct_elements<T>()
    ensures { (p : T → Bool) (chosen xs : List T) →
        Distinct chosen → AllOf (λ x. Has x xs × IsTrue (p x)) chosen → length chosen ≤ count p xs }
{}

/// The numbers below `m`, each once.
pub fn numbers()
    ensures many { (m : ℕ) → length (numbers_below m) ≡ m }
    ensures distinct { (m : ℕ) → Distinct (numbers_below m) }
    ensures below { (k m : ℕ) → Has k (numbers_below m) ↔ (k < m) }
{}

/// Two tests that all but `f` of more than `2 f` members pass have a member in common.
pub fn tests_share<T>()
    ensures { (f : ℕ) (members : List T) (p q : T → Bool) → 2 * f < length members →
        AllBut f members p → AllBut f members q → Shared p q members }
{}

/// Two majorities have a member in common.
pub fn majorities_share<T>()
    ensures { (members : List T) (p q : T → Bool) →
        HasMajority members p → HasMajority members q → Shared p q members }
{}

/// A site has `3 f + 1` servers, of which at most `f` are faulty. So more than `2 f` are correct; and
/// where `2 f + 1` distinct servers signed, all but `f` of the correct ones did what a correct server
/// does before it signs.
pub fn quorum_stands<T>()
    ensures correct { (f : ℕ) (is_correct : T → Bool) (servers : List T) → length servers ≡ 3 * f + 1 →
        count (λ s. not (is_correct s)) servers ≤ f → 2 * f < length (filter is_correct servers) }
    ensures stands { (f : ℕ) (is_correct did : T → Bool) (servers signers : List T) →
        length servers ≡ 3 * f + 1 → length signers ≡ 2 * f + 1 →
        Distinct signers → AllOf (λ s. Has s servers) signers →
        AllOf (λ s. IsTrue (is_correct s) → IsTrue (did s)) signers →
        AllBut f (filter is_correct servers) did }
{}

/// One more than half of `n` sites, rounded down, are a majority, whether `n` is even or odd.
pub fn sites_majority()
    ensures { (n : ℕ) (p : ℕ → Bool) (sites : List ℕ) → length sites ≡ n / 2 + 1 →
        Distinct sites → AllOf (λ s. (s < n) × IsTrue (p s)) sites → HasMajority (numbers_below n) p }
{}
