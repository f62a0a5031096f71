ghost use Rattle.std.specs.Prelude.{◌≡◌, ℕ, List, ◌+◌, ◌<◌, ◌≤◌, ◌^◌, ◌++◌, length, string_bytes, IfOk, OnOk};
ghost use Rattle.std.specs.List.{flat_map};
ghost use Rattle.st_report.specs.Text.{deployment_word, deployment_words, faults_words, header_line, done_words, done_line, state_word, server_line, ran_words, value_words, number_line, number_lines, server_lines, client_words, client_line, counts_line, report};

use crate::rows::{ClientRow, DoneRow, DoneWords, Header, LogRow, Rows, ServerRow, StateWord};
use st_fields::{Bytes, Seq};
use st_message::Ran;
use st_texts::put_hex;
use st_words::{Number, Value};
use std::alloc::{AllocError, Global};
use std::fmt::Write;

/// Why there is no report.
#[derive(Clone, Copy, Debug, PartialEq, Eq)]
pub enum ReportError {
    /// Memory was refused.
    OutOfMemory,
}

impl From<AllocError> for ReportError {
    fn from(_: AllocError) -> ReportError {
        ReportError::OutOfMemory
    }
}

/// The text of a report.
#[tactic(auto, unfolding(crate::specs::Text::report))]
pub fn report_text(alloc: Global, rows: &Rows) -> Result<Bytes, ReportError>
    ensures { IfOk result (λ text. text ≡ report rows.now) }
{
    let mut out = String::new(alloc);
    put_header(&mut out, &rows.header)?;
    put_rows(alloc, &mut out, rows.done.as_slice())?;
    put_rows(alloc, &mut out, rows.servers.as_slice())?;
    put_rows(alloc, &mut out, rows.clients.as_slice())?;
    put_counts(&mut out, rows.sent, rows.undelivered)?;
    Ok(Seq::from_vec(out.into_bytes()))
}

// A row that has lines of its own.
trait Printed {
    ghost text: { Self → List ℕ };

    fn put(&self, alloc: Global, out: &mut String) -> Result<(), AllocError>
        ensures { OnOk result (string_bytes out.new ≡ string_bytes out.old ++ text self.now) };
}

impl Printed for DoneRow {
    ghost text = { λ row. done_line row };

    fn put(&self, alloc: Global, out: &mut String) -> Result<(), AllocError> {
        put_done(alloc, out, self)?;
        Ok(())
    }
}

impl Printed for ServerRow {
    ghost text = { λ row. server_lines row };

    fn put(&self, alloc: Global, out: &mut String) -> Result<(), AllocError> {
        put_server(alloc, out, self)?;
        Ok(())
    }
}

impl Printed for ClientRow {
    ghost text = { λ row. client_line row };

    fn put(&self, alloc: Global, out: &mut String) -> Result<(), AllocError> {
        put_client(alloc, out, self)?;
        Ok(())
    }
}

fn put_rows<T: Printed>(alloc: Global, out: &mut String, rows: &[T]) -> Result<(), AllocError>
    ensures { OnOk result (string_bytes out.new ≡ string_bytes out.old ++ flat_map T.text rows.now) }
{
    for row in rows {
        row.put(alloc, out)?;
    }
    Ok(())
}

#[tactic(auto, unfolding(crate::specs::Text::header_line))]
fn put_header(out: &mut String, header: &Header) -> Result<(), AllocError>
    ensures { OnOk result (string_bytes out.new ≡ string_bytes out.old ++ header_line header.now) }
{
    put_deployment(out, header)?;
    put_faults(out, header)?;
    Ok(())
}

#[tactic(auto, unfolding(crate::specs::Text::deployment_words))]
fn put_deployment(out: &mut String, header: &Header) -> Result<(), AllocError>
    ensures { OnOk result (string_bytes out.new ≡ string_bytes out.old ++ deployment_words header.now) }
{
    let id = header.id;
    let sites = header.sites;
    put_deployment_word(out)?;
    write!(out, "{id} sites {sites}")?;
    Ok(())
}

#[tactic(auto, unfolding(crate::specs::Text::deployment_word))]
fn put_deployment_word(out: &mut String) -> Result<(), AllocError>
    ensures { OnOk result (string_bytes out.new ≡ string_bytes out.old ++ deployment_word) }
{
    out.push_str("deployment ")?;
    Ok(())
}

#[tactic(auto, unfolding(crate::specs::Text::faults_words))]
fn put_faults(out: &mut String, header: &Header) -> Result<(), AllocError>
    ensures { OnOk result (string_bytes out.new ≡ string_bytes out.old ++ faults_words header.now) }
{
    let f = header.f;
    let clients = header.clients;
    write!(out, " f {f} clients {clients}\n")?;
    Ok(())
}

#[tactic(auto, unfolding(crate::specs::Text::done_line))]
fn put_done(alloc: Global, out: &mut String, row: &DoneRow) -> Result<(), AllocError>
    ensures { OnOk result (string_bytes out.new ≡ string_bytes out.old ++ done_line row.now) }
{
    let line = row.line;
    write!(out, "line {line} ")?;
    put_done_words(alloc, out, &row.words)?;
    out.push_str("\n")?;
    Ok(())
}

#[tactic(auto, unfolding(crate::specs::Text::done_words))]
fn put_done_words(alloc: Global, out: &mut String, words: &DoneWords) -> Result<(), AllocError>
    ensures { OnOk result (string_bytes out.new ≡ string_bytes out.old ++ done_words words.now) }
{
    match words {
        DoneWords::Sent(message) => write!(out, "sent {message}")?,
        DoneWords::SealsSpent(used) => write!(out, "ignored seals-spent {used}")?,
        DoneWords::Did => out.push_str("did")?,
        DoneWords::Ignored(reason) => write!(out, "ignored {reason}")?,
        DoneWords::Stopped => out.push_str("stopped")?,
        DoneWords::Full => out.push_str("full")?,
        DoneWords::Faulty => out.push_str("faulty")?,
        DoneWords::Flowed {
            pairs,
            did,
            ignored,
        } => write!(out, "flow {pairs} did {did} ignored {ignored}")?,
        DoneWords::Dropped(pairs) => write!(out, "dropped {pairs}")?,
        DoneWords::Set => out.push_str("set")?,
        DoneWords::Running => out.push_str("running")?,
        DoneWords::Shown(bytes) => {
            out.push_str("show ")?;
            put_hex(alloc, out, bytes.as_slice())?;
        }
    }
    Ok(())
}

#[tactic(auto, unfolding(crate::specs::Text::state_word))]
fn put_state(out: &mut String, state: StateWord) -> Result<(), AllocError>
    ensures { OnOk result (string_bytes out.new ≡ string_bytes out.old ++ state_word state) }
{
    match state {
        StateWord::Running => out.push_str("running")?,
        StateWord::Stopped => out.push_str("stopped")?,
        StateWord::Full => out.push_str("full")?,
    }
    Ok(())
}

#[tactic(auto, unfolding(crate::specs::Text::server_lines))]
fn put_server(alloc: Global, out: &mut String, row: &ServerRow) -> Result<(), AllocError>
    ensures { OnOk result (string_bytes out.new ≡ string_bytes out.old ++ server_lines row.now) }
{
    put_server_line(out, row)?;
    put_log(alloc, out, row.log.as_slice())?;
    Ok(())
}

#[tactic(auto, unfolding(crate::specs::Text::server_line))]
fn put_server_line(out: &mut String, row: &ServerRow) -> Result<(), AllocError>
    ensures { OnOk result (string_bytes out.new ≡ string_bytes out.old ++ server_line row.now) }
{
    let site = row.who.site;
    let index = row.who.index;
    write!(out, "server {site}.{index} ")?;
    put_state(out, row.state)?;
    let view = row.view.0;
    let local = row.local.0;
    let executed = row.executed;
    let leaf = row.leaf;
    write!(out, " view {view} local {local}")?;
    write!(out, " executed {executed} leaf {leaf}\n")?;
    Ok(())
}

#[tactic(auto, unfolding(crate::specs::Text::number_lines))]
fn put_log(alloc: Global, out: &mut String, log: &[LogRow]) -> Result<(), AllocError>
    ensures { OnOk result (string_bytes out.new ≡ string_bytes out.old ++ number_lines 1 log.now) }
{
    for (index, row) in log.iter().enumerate() {
        put_number(alloc, out, index + 1, row)?;
    }
    Ok(())
}

#[tactic(auto, unfolding(crate::specs::Text::number_line))]
fn put_number(
    alloc: Global,
    out: &mut String,
    number: usize,
    row: &LogRow,
) -> Result<(), AllocError>
    ensures { OnOk result (string_bytes out.new ≡ string_bytes out.old ++ number_line number row.now) }
{
    write!(out, "number {number} ")?;
    put_value(alloc, out, &row.value)?;
    put_ran(alloc, out, &row.ran)?;
    out.push_str("\n")?;
    Ok(())
}

#[tactic(auto, unfolding(crate::specs::Text::value_words))]
fn put_value(alloc: Global, out: &mut String, value: &Value) -> Result<(), AllocError>
    ensures { OnOk result (string_bytes out.new ≡ string_bytes out.old ++ value_words value.now) }
{
    match value {
        Value::Noop => out.push_str("noop")?,
        Value::Update(update) => {
            let client = update.client.0;
            let time = update.time;
            write!(out, "update {client} {time} ")?;
            put_hex(alloc, out, update.op.as_slice())?;
        }
    }
    Ok(())
}

#[tactic(auto, unfolding(crate::specs::Text::ran_words))]
fn put_ran(alloc: Global, out: &mut String, ran: &Ran) -> Result<(), AllocError>
    ensures { OnOk result (string_bytes out.new ≡ string_bytes out.old ++ ran_words ran.now) }
{
    match ran {
        Ran::Ran { result: bytes } => {
            out.push_str(" ran ")?;
            put_hex(alloc, out, bytes.as_slice())?;
        }
        Ran::Skipped { last } => write!(out, " skipped {last}")?,
        Ran::Nothing => {}
    }
    Ok(())
}

#[tactic(auto, unfolding(crate::specs::Text::client_line))]
fn put_client(alloc: Global, out: &mut String, row: &ClientRow) -> Result<(), AllocError>
    ensures { OnOk result (string_bytes out.new ≡ string_bytes out.old ++ client_line row.now) }
{
    let client = row.client.0;
    let time = row.time;
    write!(out, "client {client} time {time}")?;
    put_client_words(alloc, out, time, &row.result)?;
    out.push_str("\n")?;
    Ok(())
}

#[tactic(auto, unfolding(crate::specs::Text::client_words))]
fn put_client_words(
    alloc: Global,
    out: &mut String,
    time: u32,
    answer: &Option<(Number, Bytes)>,
) -> Result<(), AllocError>
    ensures { OnOk result (string_bytes out.new ≡ string_bytes out.old ++ client_words time answer.now) }
{
    match answer {
        Some((number, bytes)) => {
            let number = number.0;
            write!(out, " number {number} result ")?;
            put_hex(alloc, out, bytes.as_slice())?;
        }
        None if time == 0 => out.push_str(" idle")?,
        None => out.push_str(" waiting")?,
    }
    Ok(())
}

#[tactic(auto, unfolding(crate::specs::Text::counts_line))]
fn put_counts(out: &mut String, sent: u32, undelivered: u32) -> Result<(), AllocError>
    ensures { OnOk result (string_bytes out.new ≡ string_bytes out.old ++ counts_line sent undelivered) }
{
    write!(out, "sent {sent} undelivered {undelivered}\n")?;
    Ok(())
}
