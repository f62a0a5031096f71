use st_fields::{Bytes, Copied, Same, Seq, WordsError};
use st_seal::{Quorum, Quorums, Signed};
use st_words::{LocalView, Number, ServerId, SiteId, Statement, Update, Value, View};
use std::alloc::Global;

/// One site's word: its certificate for a statement that the context names.
#[derive(Drop)]
pub struct SiteWord {
    pub site: SiteId,
    pub quorum: Quorum,
}

/// A list of sites' words.
pub type SiteWords = Seq<SiteWord>;

/// That a majority of sites accepted the value in the view, for a number that the context names.
#[derive(Drop)]
pub struct Proof {
    pub view: View,
    pub value: Value,
    pub sites: SiteWords,
}

/// A list of proofs.
pub type Proofs = Seq<Proof>;

/// A server's report on entering a view, with what backs it: a certificate for each item, and the
/// order proof of its base.
#[derive(Drop)]
pub struct ReportBody {
    pub statement: Statement,
    pub seal: Bytes,
    pub quorums: Quorums,
    pub base: Option<Proof>,
}

/// A list of reports.
pub type Reports = Seq<ReportBody>;

/// Why a view is entered: a quorum of one site for a local view, or a majority of sites for a view.
#[derive(Drop)]
pub enum ViewWords {
    Local {
        statement: Statement,
        quorum: Quorum,
    },
    Global {
        view: View,
        sites: SiteWords,
    },
}

/// A message.
#[derive(Drop)]
pub enum Message {
    /// A client's update, with its seal.
    Update {
        update: Update,
        seal: Bytes,
    },
    /// A representative gives a number a value: its Prepare, with the client's seal or no bytes.
    Assign {
        view: View,
        local: LocalView,
        number: Number,
        value: Value,
        client_seal: Bytes,
        signed: Signed,
    },
    /// A server's seal on a statement.
    Share {
        statement: Statement,
        signed: Signed,
    },
    /// A site's voice on a statement.
    Certificate {
        statement: Statement,
        quorum: Quorum,
    },
    /// That a number is ordered.
    OrderProof {
        number: Number,
        proof: Proof,
    },
    /// A server's report.
    Report {
        report: ReportBody,
    },
    /// A quorum of reports.
    Bundle {
        reports: Reports,
    },
    /// Why a view is entered.
    ViewProof {
        words: ViewWords,
    },
    /// Where a server stands, who asks for what it lacks.
    Ask {
        server: ServerId,
        executed: u32,
        view: View,
        local: LocalView,
    },
    /// A server's answer to a client.
    Reply {
        statement: Statement,
        signed: Signed,
    },
}

impl Copied for SiteWord {
    fn copy(&self, alloc: Global) -> Result<SiteWord, WordsError> {
        Ok(SiteWord {
            site: self.site,
            quorum: self.quorum.copy(alloc)?,
        })
    }
}

impl Same for SiteWord {
    fn same(&self, other: &SiteWord) -> bool {
        self.site == other.site && self.quorum.same(&other.quorum)
    }
}

impl Copied for Proof {
    fn copy(&self, alloc: Global) -> Result<Proof, WordsError> {
        Ok(Proof {
            view: self.view,
            value: self.value.copy(alloc)?,
            sites: self.sites.copy(alloc)?,
        })
    }
}

impl Same for Proof {
    fn same(&self, other: &Proof) -> bool {
        self.view == other.view && self.value.same(&other.value) && self.sites.same(&other.sites)
    }
}

impl Copied for ReportBody {
    fn copy(&self, alloc: Global) -> Result<ReportBody, WordsError> {
        Ok(ReportBody {
            statement: self.statement.copy(alloc)?,
            seal: self.seal.copy(alloc)?,
            quorums: self.quorums.copy(alloc)?,
            base: self.base.copy(alloc)?,
        })
    }
}

impl Copied for ViewWords {
    fn copy(&self, alloc: Global) -> Result<ViewWords, WordsError> {
        match self {
            ViewWords::Local { statement, quorum } => Ok(ViewWords::Local {
                statement: statement.copy(alloc)?,
                quorum: quorum.copy(alloc)?,
            }),
            ViewWords::Global { view, sites } => Ok(ViewWords::Global {
                view: *view,
                sites: sites.copy(alloc)?,
            }),
        }
    }
}

impl Copied for Message {
    fn copy(&self, alloc: Global) -> Result<Message, WordsError> {
        match self {
            Message::Update { update, seal } => Ok(Message::Update {
                update: update.copy(alloc)?,
                seal: seal.copy(alloc)?,
            }),
            Message::Assign {
                view,
                local,
                number,
                value,
                client_seal,
                signed,
            } => Ok(Message::Assign {
                view: *view,
                local: *local,
                number: *number,
                value: value.copy(alloc)?,
                client_seal: client_seal.copy(alloc)?,
                signed: signed.copy(alloc)?,
            }),
            Message::Share { statement, signed } => Ok(Message::Share {
                statement: statement.copy(alloc)?,
                signed: signed.copy(alloc)?,
            }),
            Message::Certificate { statement, quorum } => Ok(Message::Certificate {
                statement: statement.copy(alloc)?,
                quorum: quorum.copy(alloc)?,
            }),
            Message::OrderProof { number, proof } => Ok(Message::OrderProof {
                number: *number,
                proof: proof.copy(alloc)?,
            }),
            Message::Report { report } => Ok(Message::Report {
                report: report.copy(alloc)?,
            }),
            Message::Bundle { reports } => Ok(Message::Bundle {
                reports: reports.copy(alloc)?,
            }),
            Message::ViewProof { words } => Ok(Message::ViewProof {
                words: words.copy(alloc)?,
            }),
            Message::Ask {
                server,
                executed,
                view,
                local,
            } => Ok(Message::Ask {
                server: *server,
                executed: *executed,
                view: *view,
                local: *local,
            }),
            Message::Reply { statement, signed } => Ok(Message::Reply {
                statement: statement.copy(alloc)?,
                signed: signed.copy(alloc)?,
            }),
        }
    }
}
