//! Event lines as text.

ghost use Rattle.std.specs.Prelude.{◌≡◌, ◌∷◌, ◌++◌, if◌then◌else◌, string_bytes, IfOk, OnOk, IsOkUnless};
ghost use Rattle.std.specs.Fmt.{decimal};
ghost use Rattle.st_schedule.specs.Lines.{Event, line_of};
ghost use Rattle.st_schedule.specs.Ranges.{FitsLine, KeepsLine, KeepsSealed};
ghost use Rattle.st_schedule.specs.Spelling.{dest_text, line_spelling, server_text};
ghost use Rattle.st_schedule.specs.declared.line.Line.{Line};
ghost use Rattle.st_schedule.specs.declared.read.ScheduleError.TheVariants as errors;
ghost use Rattle.st_texts.specs.Hexadecimal.{hex_text};
ghost use Rattle.st_words.specs.Spelling.{core_spelling};

use crate::Dest;
use crate::line::Line;
use crate::read::ScheduleError;
use st_fields::{Bytes, Seq};
use st_texts::put_hex;
use st_words::{ServerId, Statement, put_core};
use std::alloc::{AllocError, Global};
use std::fmt::Write;

/// The text of an event line, without a newline and with hexadecimal digits in lower case.
pub fn line_text(alloc: Global, line: &Line) -> Result<Bytes, ScheduleError>
    requires { KeepsLine line.now }
    ensures text { IfOk result (λ text. text ≡ line_spelling line.now) }
    ensures memory { IsOkUnless result errors.OutOfMemory }
{
    let mut out = String::new(alloc);
    put_line(alloc, &mut out, line)?;
    Ok(Seq::from_vec(out.into_bytes()))
}

/// The text of an event line is read back as that line.
pub fn lines_are_read_back()
    ensures { (line : Line) → KeepsLine line → FitsLine line → line_of (line_spelling line) ≡ Event line }
{}

#[tactic(auto, unfolding(crate::specs::Spelling::line_spelling))]
fn put_line(alloc: Global, out: &mut String, line: &Line) -> Result<(), AllocError>
    requires { KeepsLine line.now }
    ensures { OnOk result (string_bytes out.new ≡ string_bytes out.old ++ line_spelling line.now) }
{
    match line {
        Line::Client { client, op } => {
            let client = client.0;
            write!(out, "client {client} ")?;
            put_hex(alloc, out, op.as_slice())
        }
        Line::Deliver { message, to } => put_pair(out, "deliver", *message, *to),
        Line::Drop { message, to } => put_pair(out, "drop", *message, *to),
        Line::Lose { to } => {
            out.push_str("lose ")?;
            put_dest(out, *to)
        }
        Line::Flow { pairs } => put_number(out, "flow", *pairs),
        Line::Timeout { server, global } => {
            put_choice(out, "timeout", *server, *global, "global", "local")
        }
        Line::Tick { server } => put_named(out, "tick", *server),
        Line::Stop { server, call } => {
            put_named(out, "stop", *server)?;
            put_number(out, "", *call)
        }
        Line::Restart { server, kept } => {
            put_choice(out, "restart", *server, *kept, "kept", "lost")
        }
        Line::Seal { server, statement } => {
            put_named(out, "seal", *server)?;
            out.push_str(" ")?;
            put_statement(alloc, out, statement)
        }
        Line::Raw { to, bytes } => {
            out.push_str("raw ")?;
            put_dest(out, *to)?;
            out.push_str(" ")?;
            put_hex(alloc, out, bytes.as_slice())
        }
        Line::Show { message } => put_number(out, "show", *message),
    }
}

/// A word and a number.
fn put_number(out: &mut String, word: &str, number: u32) -> Result<(), AllocError>
    ensures { OnOk result (string_bytes out.new ≡ string_bytes out.old ++ (word.now ++ 32 ∷ decimal number)) }
{
    write!(out, "{word} {number}")?;
    Ok(())
}

/// A word and a server.
fn put_named(out: &mut String, word: &str, server: ServerId) -> Result<(), AllocError>
    ensures { OnOk result (string_bytes out.new ≡ string_bytes out.old ++ (word.now ++ 32 ∷ server_text server)) }
{
    write!(out, "{word} ")?;
    put_server(out, server)
}

/// A word, a server, and one of two words.
fn put_choice(
    out: &mut String,
    word: &str,
    server: ServerId,
    choice: bool,
    yes: &str,
    no: &str,
) -> Result<(), AllocError>
    ensures { OnOk result (string_bytes out.new ≡ string_bytes out.old ++ (word.now ++ 32 ∷ (server_text server ++ 32 ∷ (if choice then yes.now else no.now)))) }
{
    put_named(out, word, server)?;
    let chosen = if choice { yes } else { no };
    write!(out, " {chosen}")?;
    Ok(())
}

/// A word, a message's number, and a destination.
fn put_pair(out: &mut String, word: &str, message: u32, to: Dest) -> Result<(), AllocError>
    ensures { OnOk result (string_bytes out.new ≡ string_bytes out.old ++ (word.now ++ 32 ∷ (decimal message ++ 32 ∷ dest_text to))) }
{
    write!(out, "{word} {message} ")?;
    put_dest(out, to)
}

#[tactic(auto, unfolding(crate::specs::Spelling::server_text))]
fn put_server(out: &mut String, server: ServerId) -> Result<(), AllocError>
    ensures { OnOk result (string_bytes out.new ≡ string_bytes out.old ++ server_text server) }
{
    let site = server.site;
    let index = server.index;
    write!(out, "{site}.{index}")?;
    Ok(())
}

#[tactic(auto, unfolding(crate::specs::Spelling::dest_text))]
fn put_dest(out: &mut String, to: Dest) -> Result<(), AllocError>
    ensures { OnOk result (string_bytes out.new ≡ string_bytes out.old ++ dest_text to) }
{
    match to {
        Dest::Server(server) => put_server(out, server),
        Dest::Client(client) => {
            let client = client.0;
            write!(out, "c{client}")?;
            Ok(())
        }
    }
}

/// The statement's core in hexadecimal.
fn put_statement(alloc: Global, out: &mut String, statement: &Statement) -> Result<(), AllocError>
    requires { KeepsSealed statement.now }
    ensures { OnOk result (string_bytes out.new ≡ string_bytes out.old ++ hex_text (core_spelling statement.now)) }
{
    let mut core = Vec::new(alloc);
    put_core(&mut core, statement)?;
    put_hex(alloc, out, core.as_slice())
}
