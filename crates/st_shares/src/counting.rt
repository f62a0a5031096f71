ghost use Rattle.std.specs.Prelude.{◌≡◌, ℕ, ◌<◌, ◌≤◌, true, false, cond, nat_eq, nat_le, Option, Some, None};
ghost use Rattle.std.specs.Option.{option_copied};
ghost use Rattle.st_protocol.specs.Keeping.{given};
ghost use Rattle.st_protocol.specs.Step as step;
ghost use Rattle.st_protocol.specs.Step.{count_below, some_below};
ghost use Rattle.st_shares.specs.Counts.{is_counted, is_agreed_at};
ghost use Rattle.st_state.specs.HereView.{Serve, here_of};
ghost use Rattle.st_state.specs.Writes.{among};

use crate::here::{quorum, servers};
use crate::same::says;
use crate::slot::entry_of;
use st_message::{Here, Share};
use st_seal::Signed;
use st_tables::Table;
use st_words::Statement;

/// How many of the site's servers have a kept share over the statement.
#[tactic(auto, unfolding(st_protocol::specs::Step::agreeing))]
pub fn agreeing(here: &Here, row: Option<&Table<Share>>, statement: &Statement) -> usize
    ensures { (clients : ℕ) (serve : Serve) → result ≡ step.agreeing (here_of clients serve here.now) (among (option_copied row.entry)) statement.now }
{
    count_saying(servers(here), row, None, statement)
}

/// Whether a quorum of the kept shares is over one statement.
#[tactic(auto, using(crate::proofs::CountLaws::complete_by))]
pub fn complete(here: &Here, row: Option<&Table<Share>>) -> bool
    ensures { (clients : ℕ) (serve : Serve) → result ≡ step.complete (here_of clients serve here.now) (among (option_copied row.entry)) }
{
    some_agreed(servers(here), quorum(here), row)
}

/// Whether a quorum of shares is over the statement once this share of it is kept too. A server's
/// shares count once.
#[tactic(auto, using(crate::proofs::CountLaws::agreeing_with_share))]
pub fn completes(
    here: &Here,
    row: Option<&Table<Share>>,
    statement: &Statement,
    signed: &Signed,
) -> bool
    ensures { (clients : ℕ) (serve : Serve) → result ≡ step.completes (here_of clients serve here.now) (among (option_copied row.entry)) statement.now signed.now }
{
    quorum(here) <= count_saying(servers(here), row, Some(signed.index), statement)
}

/// Whether a share of a server brings nothing new: one of it is kept, or its slot is complete.
pub fn is_seen_share(here: &Here, row: Option<&Table<Share>>, index: u8) -> bool
    ensures { (clients : ℕ) (serve : Serve) → result ≡ step.is_seen_share (here_of clients serve here.now) (among (option_copied row.entry)) index }
{
    entry_of(row, index as usize).is_some() || complete(here, row)
}

// Whether one of the first keys has a share with whose statement so many agree.
#[tactic(auto, using(st_protocol::proofs::BelowLaws::some_below_none, st_protocol::proofs::BelowLaws::some_below_more, st_protocol::proofs::BelowLaws::some_below_found))]
fn some_agreed(servers: usize, quorum: usize, row: Option<&Table<Share>>) -> bool
    ensures { result ≡ some_below (is_agreed_at servers quorum (among (option_copied row.entry))) servers }
{
    for key in 0..servers {
        if is_agreed(servers, quorum, row, key) {
            return true;
        }
    }
    false
}

// Whether a key has a share with whose statement so many agree.
#[tactic(auto, unfolding(crate::specs::Counts::is_agreed_at))]
fn is_agreed(servers: usize, quorum: usize, row: Option<&Table<Share>>, key: usize) -> bool
    ensures { result ≡ is_agreed_at servers quorum (among (option_copied row.entry)) key }
{
    match entry_of(row, key) {
        Some(share) => quorum <= count_saying(servers, row, None, &share.statement),
        None => false,
    }
}

// How many of the first keys have a share over the statement, this one counted as one that has.
#[tactic(auto, using(st_protocol::proofs::BelowLaws::count_below_none, st_protocol::proofs::BelowLaws::count_below_more))]
fn count_saying(
    servers: usize,
    row: Option<&Table<Share>>,
    sure: Option<u8>,
    statement: &Statement,
) -> usize
    ensures count { result ≡ count_below (is_counted sure (among (option_copied row.entry)) statement.now) servers }
    ensures most { result ≤ servers }
{
    let mut count = 0;
    for i in 0..servers {
        if is_saying(row, sure, i, statement) {
            count += 1;
        }
    }
    count
}

// Whether a key is this one or has a share over the statement.
fn is_saying(
    row: Option<&Table<Share>>,
    sure: Option<u8>,
    key: usize,
    statement: &Statement,
) -> bool
    ensures { result ≡ is_counted sure (among (option_copied row.entry)) statement.now key }
{
    match sure {
        Some(sure) if sure as usize == key => true,
        _ => says(entry_of(row, key), statement),
    }
}
