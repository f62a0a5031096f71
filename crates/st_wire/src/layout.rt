//! A message's seals, found by laying out its pieces one behind another.

ghost use Rattle.std.specs.Prelude.{All, ◌≡◌, ◌∷◌, ◌++◌, [], ◌≤◌, ◌%◌, length, OnOk, IsOkUnless, Some, None};
ghost use Rattle.std.specs.Int.{w32};
ghost use Rattle.std.specs.List.{flat_map};
ghost use Rattle.st_fields.specs.Spelling.{byte, number, text};
ghost use Rattle.st_fields.specs.declared.error.WordsError.TheVariants as words;
ghost use Rattle.st_words.specs.Ranges.{KeepsUpdate, KeepsValue};
ghost use Rattle.st_words.specs.declared.statement.Statement.TheVariants.{Accept, GlobalVc, ClientUpdate};
ghost use Rattle.st_words.specs.declared.ids.Who.TheVariants as parties;
ghost use Rattle.st_wire.specs.Kind.{items_of, base_of};
ghost use Rattle.st_wire.specs.Ranges.{KeepsBase, KeepsBacked, KeepsWords, KeepsMessage};
ghost use Rattle.st_wire.specs.Seals.{Plain, Sealed, signed_pieces, quorum_pieces, site_pieces, sites_pieces, proof_pieces, base_pieces, backing_pieces, report_pieces, words_pieces, client_pieces, assign_pieces, update_pieces, body_pieces};
ghost use Rattle.st_wire.specs.Layout.{beyond, laid};

use crate::backed::{base_of, index_of, item_statement, items_of, leader, signer};
use crate::seal::{SealIn, SealsIn};
use crate::size::{core_size, update_size, value_size};
use st_fields::{Bytes, Copied, Seq, WordsError};
use st_message::{Message, Proof, ReportBody, SiteWord, ViewWords};
use st_seal::{Quorum, Signed};
use st_words::{Number, SiteId, Statement, Update, Value, View, Who};
use std::alloc::Global;

/// What was laid out so far: its bytes, and its seals.
#[derive(Drop)]
pub struct Layout {
    pub at: usize,
    pub seals: SealsIn,
}

impl Layout {
    /// Goes on behind so many plain bytes.
    fn pass(&mut self, bytes: usize)
        ensures { self.new ≡ record { at = beyond self.old.at bytes; seals = self.old.seals } }
    {
        self.at = self.at.saturating_add(bytes);
    }

    /// Goes on behind a seal.
    #[tactic(auto, unfolding(crate::specs::Layout::laid))]
    fn note(&mut self, who: Who, statement: Statement, seal: Bytes) -> Result<(), WordsError>
        ensures ok { OnOk result (self.new ≡ laid self.old (Sealed who statement seal ∷ [])) }
        ensures memory { IsOkUnless result words.OutOfMemory }
    {
        let place = self.at.saturating_add(2);
        let end = place.saturating_add(seal.len());
        self.seals.push(SealIn {
            who,
            statement,
            seal,
            place,
        })?;
        self.at = end;
        Ok(())
    }

    #[tactic(auto, unfolding(crate::specs::Layout::laid, crate::specs::Seals::signed_pieces))]
    fn signed(
        &mut self,
        alloc: Global,
        statement: &Statement,
        signed: &Signed,
    ) -> Result<(), WordsError>
        ensures ok { OnOk result (self.new ≡ laid self.old (signed_pieces statement.now signed.now)) }
        ensures memory { IsOkUnless result words.OutOfMemory }
    {
        let statement_copy = statement.copy(alloc)?;
        let seal = signed.seal.copy(alloc)?;
        self.pass(1);
        self.note(signer(statement, signed.index), statement_copy, seal)?;
        Ok(())
    }

    #[tactic(auto, using(crate::proofs::Laying::laid_none, crate::proofs::Laying::laid_more))]
    fn shares(
        &mut self,
        alloc: Global,
        statement: &Statement,
        shares: &[Signed],
    ) -> Result<(), WordsError>
        ensures ok { OnOk result (self.new ≡ laid self.old (flat_map (signed_pieces statement.now) shares.now)) }
        ensures memory { IsOkUnless result words.OutOfMemory }
    {
        for signed in shares {
            self.signed(alloc, statement, signed)?;
        }
        Ok(())
    }

    #[tactic(auto, unfolding(crate::specs::Layout::laid, crate::specs::Seals::quorum_pieces))]
    fn quorum(
        &mut self,
        alloc: Global,
        statement: &Statement,
        quorum: &Quorum,
    ) -> Result<(), WordsError>
        ensures ok { OnOk result (self.new ≡ laid self.old (quorum_pieces statement.now quorum.now)) }
        ensures memory { IsOkUnless result words.OutOfMemory }
    {
        self.pass(1);
        self.shares(alloc, statement, quorum.as_slice())?;
        Ok(())
    }

    #[tactic(auto, unfolding(crate::specs::Layout::laid, crate::specs::Seals::site_pieces))]
    fn accept_word(
        &mut self,
        alloc: Global,
        number: Number,
        proof: &Proof,
        word: &SiteWord,
    ) -> Result<(), WordsError>
        ensures ok { OnOk result (self.new ≡ laid self.old (site_pieces (λ site. Accept site proof.now.view number proof.now.value) word.now)) }
        ensures memory { IsOkUnless result words.OutOfMemory }
    {
        let accept = Statement::Accept {
            site: word.site,
            view: proof.view,
            number,
            value: proof.value.copy(alloc)?,
        };
        self.pass(1);
        self.quorum(alloc, &accept, &word.quorum)?;
        Ok(())
    }

    #[tactic(auto, using(crate::proofs::Laying::laid_none, crate::proofs::Laying::laid_more))]
    fn accept_words(
        &mut self,
        alloc: Global,
        number: Number,
        proof: &Proof,
    ) -> Result<(), WordsError>
        ensures ok { OnOk result (self.new ≡ laid self.old (flat_map (site_pieces (λ site. Accept site proof.now.view number proof.now.value)) proof.now.sites)) }
        ensures memory { IsOkUnless result words.OutOfMemory }
    {
        for word in proof.sites.as_slice() {
            self.accept_word(alloc, number, proof, word)?;
        }
        Ok(())
    }

    #[tactic(auto, unfolding(crate::specs::Layout::laid, crate::specs::Seals::proof_pieces, crate::specs::Seals::sites_pieces, st_fields::specs::Spelling::number))]
    fn proof(&mut self, alloc: Global, number: Number, proof: &Proof) -> Result<(), WordsError>
        requires { KeepsValue proof.now.value }
        ensures ok { OnOk result (self.new ≡ laid self.old (proof_pieces number proof.now)) }
        ensures memory { IsOkUnless result words.OutOfMemory }
    {
        self.pass(4);
        self.pass(value_size(&proof.value));
        self.pass(1);
        self.accept_words(alloc, number, proof)?;
        Ok(())
    }

    #[tactic(auto, unfolding(crate::specs::Layout::laid, crate::specs::Seals::site_pieces))]
    fn view_word(&mut self, alloc: Global, view: View, word: &SiteWord) -> Result<(), WordsError>
        ensures ok { OnOk result (self.new ≡ laid self.old (site_pieces (λ site. GlobalVc site view) word.now)) }
        ensures memory { IsOkUnless result words.OutOfMemory }
    {
        let site = word.site;
        self.pass(1);
        self.quorum(alloc, &Statement::GlobalVc { site, view }, &word.quorum)?;
        Ok(())
    }

    #[tactic(auto, using(crate::proofs::Laying::laid_none, crate::proofs::Laying::laid_more))]
    fn view_words(
        &mut self,
        alloc: Global,
        view: View,
        sites: &[SiteWord],
    ) -> Result<(), WordsError>
        ensures ok { OnOk result (self.new ≡ laid self.old (flat_map (site_pieces (λ site. GlobalVc site view)) sites.now)) }
        ensures memory { IsOkUnless result words.OutOfMemory }
    {
        for word in sites {
            self.view_word(alloc, view, word)?;
        }
        Ok(())
    }

    #[tactic(auto, using(crate::proofs::Laying::backing_none, crate::proofs::Laying::backing_more))]
    fn backing(
        &mut self,
        alloc: Global,
        sites: u8,
        report: &Statement,
        quorums: &[Quorum],
    ) -> Result<(), WordsError>
        requires sites { 1 ≤ sites }
        requires each { length quorums.now ≡ length (items_of report.now) }
        ensures ok { OnOk result (self.new ≡ laid self.old (backing_pieces sites report.now (items_of report.now) quorums.now)) }
        ensures memory { IsOkUnless result words.OutOfMemory }
    {
        let items = items_of(report);
        for (k, quorum) in quorums.iter().enumerate() {
            let backed = item_statement(alloc, sites, report, &items[k])?;
            self.quorum(alloc, &backed, quorum)?;
        }
        Ok(())
    }

    #[tactic(auto, using(crate::proofs::Laying::laid_none), unfolding(crate::specs::Seals::base_pieces))]
    fn base(&mut self, alloc: Global, number: u32, base: &Option<Proof>) -> Result<(), WordsError>
        requires { KeepsBase number base.now }
        ensures ok { OnOk result (self.new ≡ laid self.old (base_pieces number base.now)) }
        ensures memory { IsOkUnless result words.OutOfMemory }
    {
        match base {
            None => {}
            Some(proof) => self.proof(alloc, Number(number), proof)?,
        }
        Ok(())
    }

    #[tactic(auto, using(crate::proofs::Laying::laid_append), unfolding(crate::specs::Layout::laid, crate::specs::Seals::report_pieces))]
    fn report(&mut self, alloc: Global, sites: u8, report: &ReportBody) -> Result<(), WordsError>
        requires sites { 1 ≤ sites }
        requires keeps { KeepsBacked report.now }
        ensures ok { OnOk result (self.new ≡ laid self.old (report_pieces sites report.now)) }
        ensures memory { IsOkUnless result words.OutOfMemory }
    {
        let statement = &report.statement;
        let who = signer(statement, index_of(statement));
        self.pass(core_size(statement));
        self.note(who, statement.copy(alloc)?, report.seal.copy(alloc)?)?;
        self.backing(alloc, sites, statement, report.quorums.as_slice())?;
        self.base(alloc, base_of(statement), &report.base)?;
        Ok(())
    }

    #[tactic(auto, using(crate::proofs::Laying::laid_none, crate::proofs::Laying::laid_more))]
    fn reports(
        &mut self,
        alloc: Global,
        sites: u8,
        reports: &[ReportBody],
    ) -> Result<(), WordsError>
        requires sites { 1 ≤ sites }
        requires each { All KeepsBacked reports.now }
        ensures ok { OnOk result (self.new ≡ laid self.old (flat_map (report_pieces sites) reports.now)) }
        ensures memory { IsOkUnless result words.OutOfMemory }
    {
        for report in reports {
            self.report(alloc, sites, report)?;
        }
        Ok(())
    }

    #[tactic(auto, unfolding(crate::specs::Layout::laid, crate::specs::Seals::words_pieces, crate::specs::Seals::sites_pieces, st_fields::specs::Spelling::number))]
    fn words(&mut self, alloc: Global, why: &ViewWords) -> Result<(), WordsError>
        requires { KeepsWords why.now }
        ensures ok { OnOk result (self.new ≡ laid self.old (words_pieces why.now)) }
        ensures memory { IsOkUnless result words.OutOfMemory }
    {
        self.pass(1);
        match why {
            ViewWords::Local { statement, quorum } => {
                self.pass(core_size(statement));
                self.quorum(alloc, statement, quorum)?;
            }
            ViewWords::Global { view, sites } => {
                self.pass(4);
                self.pass(1);
                self.view_words(alloc, *view, sites.as_slice())?;
            }
        }
        Ok(())
    }

    #[tactic(auto, unfolding(crate::specs::Layout::laid, crate::specs::Seals::client_pieces, st_fields::specs::Spelling::number))]
    fn client(&mut self, alloc: Global, value: &Value, seal: &Bytes) -> Result<(), WordsError>
        ensures ok { OnOk result (self.new ≡ laid self.old (client_pieces value.now seal.now)) }
        ensures memory { IsOkUnless result words.OutOfMemory }
    {
        match value {
            Value::Update(update) if !seal.is_empty() => {
                let asked = Statement::ClientUpdate {
                    update: update.copy(alloc)?,
                };
                self.note(Who::Client(update.client), asked, seal.copy(alloc)?)?;
            }
            _ => {
                self.pass(2);
                self.pass(seal.len());
            }
        }
        Ok(())
    }

    #[tactic(auto, using(crate::proofs::Laying::laid_append), unfolding(crate::specs::Layout::laid, crate::specs::Seals::assign_pieces))]
    fn assign(
        &mut self,
        alloc: Global,
        prepare: &Statement,
        value: &Value,
        client_seal: &Bytes,
        signed: &Signed,
    ) -> Result<(), WordsError>
        requires { KeepsValue value.now }
        ensures ok { OnOk result (self.new ≡ laid self.old (assign_pieces prepare.now value.now client_seal.now signed.now)) }
        ensures memory { IsOkUnless result words.OutOfMemory }
    {
        self.pass(value_size(value));
        self.client(alloc, value, client_seal)?;
        self.signed(alloc, prepare, signed)?;
        Ok(())
    }

    #[tactic(auto, unfolding(crate::specs::Layout::laid, crate::specs::Seals::update_pieces))]
    fn update(&mut self, alloc: Global, update: &Update, seal: &Bytes) -> Result<(), WordsError>
        requires { KeepsUpdate update.now }
        ensures ok { OnOk result (self.new ≡ laid self.old (update_pieces update.now seal.now)) }
        ensures memory { IsOkUnless result words.OutOfMemory }
    {
        let asked = Statement::ClientUpdate {
            update: update.copy(alloc)?,
        };
        let seal = seal.copy(alloc)?;
        self.pass(update_size(update));
        self.note(Who::Client(update.client), asked, seal)?;
        Ok(())
    }

    /// The body behind a message's kind.
    #[tactic(auto, using(crate::proofs::Kept::kept_reports), unfolding(crate::specs::Layout::laid, crate::specs::Seals::body_pieces, st_fields::specs::Spelling::number))]
    pub fn body(&mut self, alloc: Global, sites: u8, message: &Message) -> Result<(), WordsError>
        requires sites { 1 ≤ sites }
        requires keeps { KeepsMessage message.now }
        ensures ok { OnOk result (self.new ≡ laid self.old (body_pieces sites message.now)) }
        ensures memory { IsOkUnless result words.OutOfMemory }
    {
        match message {
            Message::Update { update, seal } => self.update(alloc, update, seal)?,
            Message::Assign {
                view,
                local,
                number,
                value,
                client_seal,
                signed,
            } => {
                let prepare = Statement::Prepare {
                    site: leader(sites, *view),
                    view: *view,
                    local: *local,
                    number: *number,
                    value: value.copy(alloc)?,
                };
                self.pass(12);
                self.assign(alloc, &prepare, value, client_seal, signed)?;
            }
            Message::Share { statement, signed } | Message::Reply { statement, signed } => {
                self.pass(core_size(statement));
                self.signed(alloc, statement, signed)?;
            }
            Message::Certificate { statement, quorum } => {
                self.pass(core_size(statement));
                self.quorum(alloc, statement, quorum)?;
            }
            Message::OrderProof { number, proof } => {
                self.pass(4);
                self.proof(alloc, *number, proof)?;
            }
            Message::Report { report } => self.report(alloc, sites, report)?,
            Message::Bundle { reports } => {
                self.pass(1);
                self.reports(alloc, sites, reports.as_slice())?;
            }
            Message::ViewProof { words } => self.words(alloc, words)?,
            Message::Ask { .. } => self.pass(14),
        }
        Ok(())
    }
}
