ghost use Rattle.std.specs.Prelude.{◌≡◌, ℕ, ◌+◌, ◌/◌, ◌<◌, ◌≤◌, Some, None, [], ◌∷◌, ◌++◌, take, nat_le, is_some, IfOk, OnOk, IsOkUnless};
ghost use Rattle.std.specs.Option.{option_copied};
ghost use Rattle.st_fields.specs.declared.error.WordsError.TheVariants as errors;
ghost use Rattle.st_protocol.specs.Keeping.{given};
ghost use Rattle.st_protocol.specs.Words.{a_site_word};
ghost use Rattle.st_protocol.specs.Step.{count_below, all_below};
ghost use Rattle.st_protocol.specs.Ordering.{names, site_word, words_proof};
ghost use Rattle.st_state.specs.HandView.{word_of};
ghost use Rattle.st_order.specs.Words.{bare, proof_in, proof_naming};

use st_fields::{Copied, Seq, WordsError};
use st_message::{Here, Proof, SiteWord, SiteWords};
use st_seal::Quorum;
use st_shares::{majority, same_value};
use st_state::{Named, Words};
use st_words::{SiteId, Value, View};
use std::alloc::Global;

/// A word whose value a majority of sites name, that of the first such site, if there is one.
#[tactic(auto, using(st_protocol::proofs::BelowLaws::first_below_none, st_protocol::proofs::BelowLaws::first_below_more, st_protocol::proofs::BelowLaws::first_below_found))]
pub(crate) fn ordered<'a>(here: &Here, words: &'a Words) -> Option<&'a Named>
    ensures { proof_in (bare here.now) (Some words.now) ≡ given (option_copied result) None (λ named. Some (proof_naming (bare here.now) words.now named.value)) }
{
    for site in 0..here.sites {
        if let Some(named) = ordered_at(here, words, site as usize) {
            return Some(named);
        }
    }
    None
}

// A site's word, if a majority of sites name its value.
fn ordered_at<'a>(here: &Here, words: &'a Words, site: usize) -> Option<&'a Named>
    ensures { words_proof (bare here.now) (word_of (Some words.now)) site ≡ given (option_copied result) None (λ named. Some (proof_naming (bare here.now) words.now named.value)) }
{
    match words.sites.get(site) {
        Some(named) if majority(here) <= count_naming(here, words, &named.value) => Some(named),
        _ => None,
    }
}

// How many sites name the value.
#[tactic(auto, using(st_protocol::proofs::BelowLaws::count_below_none, st_protocol::proofs::BelowLaws::count_below_more))]
fn count_naming(here: &Here, words: &Words, value: &Value) -> usize
    ensures { result ≡ count_below (λ t. names value.now (word_of (Some words.now) t)) here.now.sites }
{
    let mut count = 0;
    for site in 0..here.sites {
        if is_naming(words, site as usize, value) {
            count += 1;
        }
    }
    count
}

// Whether a site's word names the value.
fn is_naming(words: &Words, site: usize, value: &Value) -> bool
    ensures { result ≡ names value.now (word_of (Some words.now) site) }
{
    match words.sites.get(site) {
        Some(named) => same_value(&named.value, value),
        None => false,
    }
}

/// The proof of a value: the words of the first majority of sites that name it.
pub(crate) fn proof_of(
    alloc: Global,
    here: &Here,
    words: &Words,
    value: &Value,
) -> Result<Proof, WordsError>
    ensures equal { IfOk result (λ proof. proof ≡ proof_naming (bare here.now) words.now value.now) }
    ensures memory { IsOkUnless result errors.OutOfMemory }
{
    let all = words_naming(alloc, here, words, value)?;
    let value = value.copy(alloc)?;
    let mut sites = all.into_vec();
    sites.truncate(majority(here));
    Ok(Proof {
        view: View(words.view),
        value,
        sites: Seq::from_vec(sites),
    })
}

// The words of the sites that name the value, by rising site.
#[tactic(auto, using(st_protocol::proofs::BelowLaws::all_below_none, st_protocol::proofs::BelowLaws::all_below_more))]
fn words_naming(
    alloc: Global,
    here: &Here,
    words: &Words,
    value: &Value,
) -> Result<SiteWords, WordsError>
    ensures equal { IfOk result (λ all. all ≡ all_below (site_word value.now (word_of (Some words.now))) here.now.sites) }
    ensures memory { IsOkUnless result errors.OutOfMemory }
{
    let mut all = Seq::new(alloc);
    for site in 0..here.sites {
        push_word(alloc, &mut all, words, site, value)?;
    }
    Ok(all)
}

// Puts a site's word last, if it names the value.
fn push_word(
    alloc: Global,
    all: &mut SiteWords,
    words: &Words,
    site: u8,
    value: &Value,
) -> Result<(), WordsError>
    ensures ok { OnOk result (all.new ≡ all.old ++ site_word value.now (word_of (Some words.now)) site) }
    ensures memory { IsOkUnless result errors.OutOfMemory }
{
    if let Some(quorum) = quorum_naming(words, site as usize, value) {
        let quorum = quorum.copy(alloc)?;
        all.push(SiteWord {
            site: SiteId(site),
            quorum,
        })?;
    }
    Ok(())
}

// The quorum of a site's word, if it names the value.
fn quorum_naming<'a>(words: &'a Words, site: usize, value: &Value) -> Option<&'a Quorum>
    ensures { site_word value.now (word_of (Some words.now)) site ≡ given (option_copied result) [] (λ quorum. a_site_word site quorum ∷ []) }
{
    match words.sites.get(site) {
        Some(named) if same_value(&named.value, value) => Some(&named.quorum),
        _ => None,
    }
}
