//! Writers of the parts of messages. Where memory is refused, a part may stand in `out` in part.

ghost use Rattle.std.specs.Prelude.{◌≡◌, ◌++◌, All, OnOk};
ghost use Rattle.std.specs.List.{flat_map};
ghost use Rattle.st_wire.specs.Ranges.{KeepsSeal, KeepsQuorum, KeepsSites, KeepsProof, KeepsBacked, KeepsWords};
ghost use Rattle.st_wire.specs.Spelling.{signed_spelling, quorum_spelling, site_spelling, sites_spelling, proof_spelling, report_spelling, words_spelling};

use st_fields::{put_byte, put_text, put_u32};
use st_message::{Proof, ReportBody, SiteWord, SiteWords, ViewWords};
use st_seal::{Quorum, Signed};
use st_words::{put_core, put_value};
use std::alloc::AllocError;

#[tactic(auto, unfolding(crate::specs::Spelling::signed_spelling))]
pub fn put_signed(out: &mut Vec<u8>, signed: &Signed) -> Result<(), AllocError>
    requires { KeepsSeal signed.now.seal }
    ensures { OnOk result (out.new.items ≡ out.old.items ++ signed_spelling signed.now) }
{
    put_byte(out, signed.index)?;
    put_text(out, signed.seal.as_slice())?;
    Ok(())
}

fn put_shares(out: &mut Vec<u8>, shares: &[Signed]) -> Result<(), AllocError>
    requires { All (λ s. KeepsSeal s.seal) shares.now }
    ensures { OnOk result (out.new.items ≡ out.old.items ++ flat_map signed_spelling shares.now) }
{
    for signed in shares {
        put_signed(out, signed)?;
    }
    Ok(())
}

#[tactic(auto, using(crate::proofs::Kept::kept_seals), unfolding(crate::specs::Spelling::quorum_spelling, st_fields::specs::Spelling::counted))]
pub fn put_quorum(out: &mut Vec<u8>, quorum: &Quorum) -> Result<(), AllocError>
    requires { KeepsQuorum quorum.now }
    ensures { OnOk result (out.new.items ≡ out.old.items ++ quorum_spelling quorum.now) }
{
    put_byte(out, quorum.len() as u8)?;
    put_shares(out, quorum.as_slice())?;
    Ok(())
}

#[tactic(auto, unfolding(crate::specs::Spelling::site_spelling))]
fn put_site(out: &mut Vec<u8>, word: &SiteWord) -> Result<(), AllocError>
    requires { KeepsQuorum word.now.quorum }
    ensures { OnOk result (out.new.items ≡ out.old.items ++ site_spelling word.now) }
{
    put_byte(out, word.site.0)?;
    put_quorum(out, &word.quorum)?;
    Ok(())
}

fn put_site_list(out: &mut Vec<u8>, words: &[SiteWord]) -> Result<(), AllocError>
    requires { All (λ w. KeepsQuorum w.quorum) words.now }
    ensures { OnOk result (out.new.items ≡ out.old.items ++ flat_map site_spelling words.now) }
{
    for word in words {
        put_site(out, word)?;
    }
    Ok(())
}

#[tactic(auto, using(crate::proofs::Kept::kept_sites), unfolding(crate::specs::Spelling::sites_spelling, st_fields::specs::Spelling::counted))]
pub fn put_sites(out: &mut Vec<u8>, sites: &SiteWords) -> Result<(), AllocError>
    requires { KeepsSites sites.now }
    ensures { OnOk result (out.new.items ≡ out.old.items ++ sites_spelling sites.now) }
{
    put_byte(out, sites.len() as u8)?;
    put_site_list(out, sites.as_slice())?;
    Ok(())
}

#[tactic(auto, unfolding(crate::specs::Spelling::proof_spelling))]
pub fn put_proof(out: &mut Vec<u8>, proof: &Proof) -> Result<(), AllocError>
    requires { KeepsProof proof.now }
    ensures { OnOk result (out.new.items ≡ out.old.items ++ proof_spelling proof.now) }
{
    put_u32(out, proof.view.0)?;
    put_value(out, &proof.value)?;
    put_sites(out, &proof.sites)?;
    Ok(())
}

fn put_quorums(out: &mut Vec<u8>, quorums: &[Quorum]) -> Result<(), AllocError>
    requires { All KeepsQuorum quorums.now }
    ensures { OnOk result (out.new.items ≡ out.old.items ++ flat_map quorum_spelling quorums.now) }
{
    for quorum in quorums {
        put_quorum(out, quorum)?;
    }
    Ok(())
}

#[tactic(auto, unfolding(crate::specs::Spelling::report_spelling, crate::specs::Spelling::base_spelling))]
pub fn put_report(out: &mut Vec<u8>, report: &ReportBody) -> Result<(), AllocError>
    requires { KeepsBacked report.now }
    ensures { OnOk result (out.new.items ≡ out.old.items ++ report_spelling report.now) }
{
    put_core(out, &report.statement)?;
    put_text(out, report.seal.as_slice())?;
    put_quorums(out, report.quorums.as_slice())?;
    match &report.base {
        None => {}
        Some(proof) => put_proof(out, proof)?,
    }
    Ok(())
}

pub fn put_reports(out: &mut Vec<u8>, reports: &[ReportBody]) -> Result<(), AllocError>
    requires { All KeepsBacked reports.now }
    ensures { OnOk result (out.new.items ≡ out.old.items ++ flat_map report_spelling reports.now) }
{
    for report in reports {
        put_report(out, report)?;
    }
    Ok(())
}

#[tactic(auto, unfolding(crate::specs::Spelling::words_spelling))]
pub fn put_words(out: &mut Vec<u8>, words: &ViewWords) -> Result<(), AllocError>
    requires { KeepsWords words.now }
    ensures { OnOk result (out.new.items ≡ out.old.items ++ words_spelling words.now) }
{
    match words {
        ViewWords::Local { statement, quorum } => {
            put_byte(out, 0)?;
            put_core(out, statement)?;
            put_quorum(out, quorum)?;
        }
        ViewWords::Global { view, sites } => {
            put_byte(out, 1)?;
            put_u32(out, view.0)?;
            put_sites(out, sites)?;
        }
    }
    Ok(())
}
