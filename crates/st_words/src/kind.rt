//! The kinds of statements.

ghost use Rattle.std.specs.Prelude.{◌≡◌};
ghost use Rattle.st_words.specs.Kind.{kind_number, kind_of};

use crate::statement::Statement;
use st_fields::Numbered;

/// What a statement says, apart from its fields.
#[derive(Clone, Copy, Debug, PartialEq, Eq)]
pub enum StatementKind {
    Prepare = 1,
    Proposal = 2,
    Accept = 3,
    LocalVc = 4,
    GlobalVc = 5,
    LocalReport = 6,
    GlobalReport = 7,
    LocalUnion = 8,
    GlobalUnion = 9,
    Reply = 10,
    ClientUpdate = 11,
}

impl Numbered for StatementKind {
    ghost number_of = { kind_number };

    fn number(self) -> u8 {
        self as u8
    }
}

impl Statement {
    /// Its kind.
    pub fn kind(&self) -> StatementKind
        ensures { result ≡ kind_of self.now }
    {
        match self {
            Statement::Prepare { .. } => StatementKind::Prepare,
            Statement::Proposal { .. } => StatementKind::Proposal,
            Statement::Accept { .. } => StatementKind::Accept,
            Statement::LocalVc { .. } => StatementKind::LocalVc,
            Statement::GlobalVc { .. } => StatementKind::GlobalVc,
            Statement::LocalReport { .. } => StatementKind::LocalReport,
            Statement::GlobalReport { .. } => StatementKind::GlobalReport,
            Statement::LocalUnion { .. } => StatementKind::LocalUnion,
            Statement::GlobalUnion { .. } => StatementKind::GlobalUnion,
            Statement::Reply { .. } => StatementKind::Reply,
            Statement::ClientUpdate { .. } => StatementKind::ClientUpdate,
        }
    }
}
