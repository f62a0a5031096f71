ghost use Rattle.std.specs.Prelude.{◌≡◌, ◌<◌, ℕ, List, IsTrue, length};
ghost use Rattle.st_hss.specs.declared.secret.HssSecret.{HssSecret};
ghost use Rattle.st_hss.specs.Formulas.{capacity_of, hss_key, hss_signature, hss_seal_length};
ghost use Rattle.st_hss.specs.Checks.{hss_checks};

/// What a key seals checks under it.
#[tactic(auto, using(crate::proofs::SealLaws::hss_sealed_checks))]
pub fn hss_sealed_checks()
    ensures { (s : HssSecret) (index : ℕ) (message : List ℕ) → length s.first.i ≡ 16 → index < capacity_of s → IsTrue (hss_checks (hss_key s) message (hss_signature s index message)) }
{}

/// How long a key's seals are: what its levels and types say.
#[tactic(auto, using(crate::proofs::SealLaws::length_of_hss_signature))]
pub fn hss_seal_lengths()
    ensures { (s : HssSecret) (index : ℕ) (message : List ℕ) → index < capacity_of s → length (hss_signature s index message) ≡ hss_seal_length s }
{}
