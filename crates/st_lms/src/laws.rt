ghost use Rattle.std.specs.Prelude.{◌≡◌, ◌<◌, ℕ, List, Ok, true, length};
ghost use Rattle.st_lms.specs.declared.secret.LmsSecret.{LmsSecret};
ghost use Rattle.st_lms.specs.Kinds.{leaves_of};
ghost use Rattle.st_lms.specs.Formulas.{lms_key, lms_signature};
ghost use Rattle.st_lms.specs.Answers.{lms_answer};

/// What a leaf seals checks under the key of its tree.
#[tactic(auto, using(crate::proofs::SealLaws::sealed_checks))]
pub fn sealed_checks()
    ensures { (s : LmsSecret) (q : ℕ) (message : List ℕ) → length s.i ≡ 16 → q < leaves_of s.kind → lms_answer (lms_key s) message (lms_signature s q message) ≡ Ok true }
{}
