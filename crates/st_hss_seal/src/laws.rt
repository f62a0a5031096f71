ghost use Rattle.std.specs.Prelude.{◌≡◌, ℕ, false, IsTrue, List, []};
ghost use Rattle.st_words.specs.declared.ids.Who.{Who};
ghost use Rattle.st_words.specs.declared.deployment.Deployment.{Deployment};
ghost use Rattle.st_seal.specs.Scheme.{scheme_of, is_party};
ghost use Rattle.st_seal.specs.Pen.{IsSound};
ghost use Rattle.st_hss_seal.specs.Keys.{is_choice};
ghost use Rattle.st_hss_seal.specs.Sealing.{holds, pen_in};

/// What a party of a deployment seals checks for it, each of its seals has from 1 to 5,076 bytes, and it has
/// at most 2^20.
#[tactic(auto, using(crate::specs::SealingLaws::pens_are_sound))]
pub fn what_parties_seal_checks()
    ensures { (d : Deployment) (who : Who) → IsTrue (is_choice d.seals) → IsTrue (is_party (scheme_of d) who) → IsSound (pen_in (scheme_of d) who) }
{}

/// An empty seal checks in no deployment, neither as a keyed one nor as one of HSS.
pub fn no_empty_seal_checks()
    ensures { (d : Deployment) (who : Who) (bytes : List ℕ) → holds d who bytes [] ≡ false }
{}
