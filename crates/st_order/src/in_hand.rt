ghost use Rattle.std.specs.Prelude.{◌≡◌, ℕ, ◌+◌, ◌^◌, ◌<◌, is_some, IfOk, IsOkUnless};
ghost use Rattle.st_fields.specs.declared.error.WordsError.TheVariants as errors;
ghost use Rattle.st_protocol.specs.Ordering as rules;
ghost use Rattle.st_state.specs.HereView.{Serve, here_of};
ghost use Rattle.st_state.specs.HandView.{hand_of};
ghost use Rattle.st_order.specs.Parts.{next_number};

use crate::words::{ordered, proof_of};
use st_fields::WordsError;
use st_message::{Change, Changes, Here, Proof};
use st_state::Hand;
use st_words::{Number, WINDOW};
use std::alloc::Global;

/// The number after those that are executed, where it is in hand; None where it isn't. Takes no memory.
pub fn next_ordered(here: &Here, hand: &Hand) -> Option<Number>
    requires { here.now.executed + 16 < 2 ^ 32 }
    ensures { (clients : ℕ) (serve : Serve) → let h = here_of clients serve here.now in result ≡ next_number h (hand_of h hand.now) }
{
    let number = here.executed + 1;
    if is_in_hand(here, hand, number) {
        Some(Number(number))
    } else {
        None
    }
}

// Whether a number is in hand.
#[tactic(auto, using(crate::proofs::InHandLaws::in_hand_by, crate::proofs::InHandLaws::not_in_hand))]
fn is_in_hand(here: &Here, hand: &Hand, number: u32) -> bool
    ensures { (clients : ℕ) (serve : Serve) → let h = here_of clients serve here.now in result ≡ is_some (rules.in_hand h (hand_of h hand.now) number) }
{
    match hand.words(here, number) {
        Some(words) => ordered(here, words).is_some(),
        None => false,
    }
}

/// The changes that execute the numbers in hand after those that are executed, as far as there is no
/// gap, and at most as many as the window has.
pub(crate) fn executions(alloc: Global, here: &Here, hand: &Hand) -> Result<Changes, WordsError>
    requires { here.now.executed + 16 < 2 ^ 32 }
    ensures equal { IfOk result (λ changes. (clients : ℕ) (serve : Serve) → let h = here_of clients serve here.now in changes ≡ rules.executions h (hand_of h hand.now) WINDOW (h.executed + 1)) }
    ensures memory { IsOkUnless result errors.OutOfMemory }
{
    let mut changes = Changes::new(alloc);
    for k in 0..WINDOW {
        let number = here.executed + 1 + k;
        let Some(proof) = in_hand(alloc, here, hand, number)? else {
            return Ok(changes);
        };
        changes.push(Change::Executed {
            number: Number(number),
            proof,
        })?;
    }
    Ok(changes)
}

// The proof of a number that is in hand.
#[tactic(auto, using(crate::proofs::InHandLaws::in_hand_by, crate::proofs::InHandLaws::not_in_hand))]
fn in_hand(
    alloc: Global,
    here: &Here,
    hand: &Hand,
    number: u32,
) -> Result<Option<Proof>, WordsError>
    ensures equal { IfOk result (λ proof. (clients : ℕ) (serve : Serve) → let h = here_of clients serve here.now in proof ≡ rules.in_hand h (hand_of h hand.now) number) }
    ensures memory { IsOkUnless result errors.OutOfMemory }
{
    let Some(words) = hand.words(here, number) else {
        return Ok(None);
    };
    let Some(named) = ordered(here, words) else {
        return Ok(None);
    };
    let proof = proof_of(alloc, here, words, &named.value)?;
    Ok(Some(proof))
}
