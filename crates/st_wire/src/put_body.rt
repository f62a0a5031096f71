//! Writers of the bodies behind each kind of message.

ghost use Rattle.std.specs.Prelude.{◌≡◌, ◌++◌, OnOk};
ghost use Rattle.st_wire.specs.Ranges.{KeepsMessage};
ghost use Rattle.st_wire.specs.Spelling.{body_spelling};

use crate::put_parts::{put_proof, put_quorum, put_report, put_reports, put_signed, put_words};
use st_fields::{put_byte, put_text, put_u32};
use st_message::Message;
use st_words::{put_core, put_update, put_value};
use std::alloc::AllocError;

/// The body behind a message's kind. Where memory is refused, a part of it may stand in `out`.
#[tactic(auto, using(crate::proofs::Kept::kept_reports), unfolding(crate::specs::Spelling::body_spelling, st_fields::specs::Spelling::counted))]
pub fn put_body(out: &mut Vec<u8>, message: &Message) -> Result<(), AllocError>
    requires { KeepsMessage message.now }
    ensures { OnOk result (out.new.items ≡ out.old.items ++ body_spelling message.now) }
{
    match message {
        Message::Update { update, seal } => {
            put_update(out, update)?;
            put_text(out, seal.as_slice())?;
        }
        Message::Assign {
            view,
            local,
            number,
            value,
            client_seal,
            signed,
        } => {
            put_u32(out, view.0)?;
            put_u32(out, local.0)?;
            put_u32(out, number.0)?;
            put_value(out, value)?;
            put_text(out, client_seal.as_slice())?;
            put_signed(out, signed)?;
        }
        Message::Share { statement, signed } | Message::Reply { statement, signed } => {
            put_core(out, statement)?;
            put_signed(out, signed)?;
        }
        Message::Certificate { statement, quorum } => {
            put_core(out, statement)?;
            put_quorum(out, quorum)?;
        }
        Message::OrderProof { number, proof } => {
            put_u32(out, number.0)?;
            put_proof(out, proof)?;
        }
        Message::Report { report } => put_report(out, report)?,
        Message::Bundle { reports } => {
            put_byte(out, reports.len() as u8)?;
            put_reports(out, reports.as_slice())?;
        }
        Message::ViewProof { words } => put_words(out, words)?,
        Message::Ask {
            server,
            executed,
            view,
            local,
        } => {
            put_byte(out, server.site)?;
            put_byte(out, server.index)?;
            put_u32(out, *executed)?;
            put_u32(out, view.0)?;
            put_u32(out, local.0)?;
        }
    }
    Ok(())
}
