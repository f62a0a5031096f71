ghost use Rattle.std.specs.Prelude.{◌≡◌, ℕ, List, Ok};
ghost use Rattle.st_lmots.specs.declared.kind.OtsKind.{OtsKind};
ghost use Rattle.st_lmots.specs.Kinds.{number_of};
ghost use Rattle.st_lmots.specs.Formulas.{ots_key, ots_signature};
ghost use Rattle.st_lmots.specs.Answers.{candidate_answer};

/// What a leaf seals has the leaf's own key as its candidate.
#[tactic(auto, using(crate::proofs::SealLaws::sealed_is_answered))]
pub fn sealed_gives_the_key()
    ensures { (kind : OtsKind) (i : List ℕ) (q : ℕ) (seed message : List ℕ) → candidate_answer (number_of kind) i q message (ots_signature kind i q seed message) ≡ Ok (ots_key kind i q seed) }
{}
