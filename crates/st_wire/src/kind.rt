//! The kinds of messages.

ghost use Rattle.std.specs.Prelude.{◌≡◌};
ghost use Rattle.st_wire.specs.Kind.{kind_number, kind_of};

use st_fields::Numbered;
use st_message::Message;
use st_words::StatementKind;

/// What a message is, apart from its body.
#[derive(Clone, Copy, Debug, PartialEq, Eq)]
pub enum MessageKind {
    Update = 1,
    Assign = 2,
    Share = 3,
    Certificate = 4,
    OrderProof = 5,
    Report = 6,
    Bundle = 7,
    ViewProof = 8,
    Ask = 9,
    Reply = 10,
}

impl Numbered for MessageKind {
    ghost number_of = { kind_number };

    fn number(self) -> u8 {
        self as u8
    }
}

impl MessageKind {
    /// The kind of a message.
    pub fn of(message: &Message) -> MessageKind
        ensures { result ≡ kind_of message.now }
    {
        match message {
            Message::Update { .. } => MessageKind::Update,
            Message::Assign { .. } => MessageKind::Assign,
            Message::Share { .. } => MessageKind::Share,
            Message::Certificate { .. } => MessageKind::Certificate,
            Message::OrderProof { .. } => MessageKind::OrderProof,
            Message::Report { .. } => MessageKind::Report,
            Message::Bundle { .. } => MessageKind::Bundle,
            Message::ViewProof { .. } => MessageKind::ViewProof,
            Message::Ask { .. } => MessageKind::Ask,
            Message::Reply { .. } => MessageKind::Reply,
        }
    }
}

pub const ALL_KINDS: [MessageKind; 10] = [
    MessageKind::Update,
    MessageKind::Assign,
    MessageKind::Share,
    MessageKind::Certificate,
    MessageKind::OrderProof,
    MessageKind::Report,
    MessageKind::Bundle,
    MessageKind::ViewProof,
    MessageKind::Ask,
    MessageKind::Reply,
];

/// The statements that stand in a Share.
pub const SHARE_KINDS: [StatementKind; 7] = [
    StatementKind::Prepare,
    StatementKind::Proposal,
    StatementKind::Accept,
    StatementKind::LocalVc,
    StatementKind::GlobalVc,
    StatementKind::LocalUnion,
    StatementKind::GlobalUnion,
];

/// The statements that stand in a Certificate.
pub const CERTIFICATE_KINDS: [StatementKind; 5] = [
    StatementKind::Proposal,
    StatementKind::Accept,
    StatementKind::GlobalVc,
    StatementKind::LocalUnion,
    StatementKind::GlobalUnion,
];
