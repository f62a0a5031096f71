//! Readers of the bodies behind each kind of message.

ghost use Rattle.std.specs.Prelude.{◌≡◌};
ghost use Rattle.st_fields.specs.Reading.{Gives};
ghost use Rattle.st_wire.specs.Ranges.{most_client_seal};
ghost use Rattle.st_wire.specs.Reading.{local_words_at, global_words_at, words_at, update_body_at, assign_at, share_at, certificate_at, order_proof_at, report_message_at, bundle_at, view_proof_at, ask_at, reply_message_at, body_at};

use crate::kind::{CERTIFICATE_KINDS, MessageKind, SHARE_KINDS};
use crate::limits::MOST_SEAL;
use crate::parts::{read_proof, read_quorum, read_seal, read_signed, read_sites};
use crate::report::{Bundled, read_body_report};
use crate::rising::Rising;
use st_fields::{
    FieldError, read_byte, read_byte_in, read_counted, read_positive, read_text, read_u32,
};
use st_message::{Message, ViewWords};
use st_words::{
    LocalView, Number, ServerId, StatementKind, Value, View, read_core, read_update, read_value,
};
use std::alloc::Global;

#[tactic(auto, unfolding(crate::specs::Reading::update_body_at))]
fn read_update_body(alloc: Global, bytes: &[u8]) -> Result<(Message, &[u8]), FieldError>
    ensures { Gives (λ x. (x.0, x.1.now)) result (update_body_at bytes.now) }
{
    let (update, rest) = read_update(alloc, bytes)?;
    let (seal, rest) = read_seal(alloc, rest)?;
    Ok((Message::Update { update, seal }, rest))
}

fn most_client_seal(value: &Value) -> u16
    ensures { result ≡ most_client_seal value.now }
{
    match value {
        Value::Noop => 0,
        Value::Update(_) => MOST_SEAL,
    }
}

#[tactic(auto, unfolding(crate::specs::Reading::assign_at))]
fn read_assign(alloc: Global, bytes: &[u8]) -> Result<(Message, &[u8]), FieldError>
    ensures { Gives (λ x. (x.0, x.1.now)) result (assign_at bytes.now) }
{
    let (view, rest) = read_u32(bytes)?;
    let (local, rest) = read_u32(rest)?;
    let (number, rest) = read_positive(rest)?;
    let (value, rest) = read_value(alloc, rest)?;
    let (client_seal, rest) = read_text(alloc, rest, 0, most_client_seal(&value))?;
    let (signed, rest) = read_signed(alloc, Rising::first(), rest)?;
    let assign = Message::Assign {
        view: View(view),
        local: LocalView(local),
        number: Number(number),
        value,
        client_seal,
        signed,
    };
    Ok((assign, rest))
}

#[tactic(auto, unfolding(crate::specs::Reading::share_at))]
fn read_share(alloc: Global, bytes: &[u8]) -> Result<(Message, &[u8]), FieldError>
    ensures { Gives (λ x. (x.0, x.1.now)) result (share_at bytes.now) }
{
    let (statement, rest) = read_core(alloc, &SHARE_KINDS, bytes)?;
    let (signed, rest) = read_signed(alloc, Rising::first(), rest)?;
    Ok((Message::Share { statement, signed }, rest))
}

#[tactic(auto, unfolding(crate::specs::Reading::certificate_at))]
fn read_certificate(alloc: Global, bytes: &[u8]) -> Result<(Message, &[u8]), FieldError>
    ensures { Gives (λ x. (x.0, x.1.now)) result (certificate_at bytes.now) }
{
    let (statement, rest) = read_core(alloc, &CERTIFICATE_KINDS, bytes)?;
    let (quorum, rest) = read_quorum(alloc, rest)?;
    Ok((Message::Certificate { statement, quorum }, rest))
}

#[tactic(auto, unfolding(crate::specs::Reading::order_proof_at))]
fn read_order_proof(alloc: Global, bytes: &[u8]) -> Result<(Message, &[u8]), FieldError>
    ensures { Gives (λ x. (x.0, x.1.now)) result (order_proof_at bytes.now) }
{
    let (number, rest) = read_positive(bytes)?;
    let (proof, rest) = read_proof(alloc, rest)?;
    let number = Number(number);
    Ok((Message::OrderProof { number, proof }, rest))
}

#[tactic(auto, unfolding(crate::specs::Reading::report_message_at))]
fn read_report_message(alloc: Global, bytes: &[u8]) -> Result<(Message, &[u8]), FieldError>
    ensures { Gives (λ x. (x.0, x.1.now)) result (report_message_at bytes.now) }
{
    let (report, rest) = read_body_report(alloc, Bundled::any(), bytes)?;
    Ok((Message::Report { report }, rest))
}

#[tactic(auto, unfolding(crate::specs::Reading::bundle_at))]
fn read_bundle(alloc: Global, bytes: &[u8]) -> Result<(Message, &[u8]), FieldError>
    ensures { Gives (λ x. (x.0, x.1.now)) result (bundle_at bytes.now) }
{
    let (reports, rest) = read_counted(alloc, 1, u8::MAX, Bundled::any(), bytes)?;
    Ok((Message::Bundle { reports }, rest))
}

#[tactic(auto, unfolding(crate::specs::Reading::local_words_at))]
fn read_local_words(alloc: Global, bytes: &[u8]) -> Result<(ViewWords, &[u8]), FieldError>
    ensures { Gives (λ x. (x.0, x.1.now)) result (local_words_at bytes.now) }
{
    let (statement, rest) = read_core(alloc, &[StatementKind::LocalVc], bytes)?;
    let (quorum, rest) = read_quorum(alloc, rest)?;
    Ok((ViewWords::Local { statement, quorum }, rest))
}

#[tactic(auto, unfolding(crate::specs::Reading::global_words_at))]
fn read_global_words(alloc: Global, bytes: &[u8]) -> Result<(ViewWords, &[u8]), FieldError>
    ensures { Gives (λ x. (x.0, x.1.now)) result (global_words_at bytes.now) }
{
    let (view, rest) = read_positive(bytes)?;
    let (sites, rest) = read_sites(alloc, rest)?;
    let view = View(view);
    Ok((ViewWords::Global { view, sites }, rest))
}

#[tactic(auto, unfolding(crate::specs::Reading::words_at))]
fn read_words(alloc: Global, bytes: &[u8]) -> Result<(ViewWords, &[u8]), FieldError>
    ensures { Gives (λ x. (x.0, x.1.now)) result (words_at bytes.now) }
{
    let (mark, rest) = read_byte_in(bytes, 0, 1)?;
    if mark == 0 {
        read_local_words(alloc, rest)
    } else {
        read_global_words(alloc, rest)
    }
}

#[tactic(auto, unfolding(crate::specs::Reading::view_proof_at))]
fn read_view_proof(alloc: Global, bytes: &[u8]) -> Result<(Message, &[u8]), FieldError>
    ensures { Gives (λ x. (x.0, x.1.now)) result (view_proof_at bytes.now) }
{
    let (words, rest) = read_words(alloc, bytes)?;
    Ok((Message::ViewProof { words }, rest))
}

#[tactic(auto, unfolding(crate::specs::Reading::ask_at))]
fn read_ask(bytes: &[u8]) -> Result<(Message, &[u8]), FieldError>
    ensures { Gives (λ x. (x.0, x.1.now)) result (ask_at bytes.now) }
{
    let (site, rest) = read_byte(bytes)?;
    let (index, rest) = read_byte(rest)?;
    let (executed, rest) = read_u32(rest)?;
    let (view, rest) = read_u32(rest)?;
    let (local, rest) = read_u32(rest)?;
    let ask = Message::Ask {
        server: ServerId { site, index },
        executed,
        view: View(view),
        local: LocalView(local),
    };
    Ok((ask, rest))
}

#[tactic(auto, unfolding(crate::specs::Reading::reply_message_at))]
fn read_reply(alloc: Global, bytes: &[u8]) -> Result<(Message, &[u8]), FieldError>
    ensures { Gives (λ x. (x.0, x.1.now)) result (reply_message_at bytes.now) }
{
    let (statement, rest) = read_core(alloc, &[StatementKind::Reply], bytes)?;
    let (signed, rest) = read_signed(alloc, Rising::first(), rest)?;
    Ok((Message::Reply { statement, signed }, rest))
}

/// The body behind this kind.
pub fn read_body(
    alloc: Global,
    kind: MessageKind,
    bytes: &[u8],
) -> Result<(Message, &[u8]), FieldError>
    ensures { Gives (λ x. (x.0, x.1.now)) result (body_at kind bytes.now) }
{
    match kind {
        MessageKind::Update => read_update_body(alloc, bytes),
        MessageKind::Assign => read_assign(alloc, bytes),
        MessageKind::Share => read_share(alloc, bytes),
        MessageKind::Certificate => read_certificate(alloc, bytes),
        MessageKind::OrderProof => read_order_proof(alloc, bytes),
        MessageKind::Report => read_report_message(alloc, bytes),
        MessageKind::Bundle => read_bundle(alloc, bytes),
        MessageKind::ViewProof => read_view_proof(alloc, bytes),
        MessageKind::Ask => read_ask(bytes),
        MessageKind::Reply => read_reply(alloc, bytes),
    }
}
