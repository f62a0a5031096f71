ghost use Rattle.std.specs.Prelude.{◌≡◌, ℕ, ◌<◌, length, replicate, IfOk, IsOkUnless};
ghost use Rattle.st_fields.specs.declared.error.WordsError.TheVariants as words;
ghost use Rattle.st_waiting.specs.Destinations.{key_of, mark_at, no_mark, SetsMark};

use st_fields::{Seq, WordsError};
use st_schedule::Dest;
use std::alloc::Global;

/// What is noted of a destination: the place from which on its pairs wait, and how many of them do.
#[derive(Clone, Copy, Debug)]
pub struct Mark {
    pub start: u32,
    pub count: u32,
}

/// A mark for each destination, under its number, with which nothing was noted.
#[tactic(auto, using(crate::proofs::DestinationLaws::mark_of_none))]
pub fn new_marks(alloc: Global) -> Result<Seq<Mark>, WordsError>
    ensures size { IfOk result (λ marks. length marks ≡ 65792) }
    ensures none { IfOk result (λ marks. (k : ℕ) → mark_at marks k ≡ no_mark) }
    ensures memory { IsOkUnless result words.OutOfMemory }
{
    let mut marks = Seq::new(alloc);
    for _key in 0..65_792_usize {
        marks.push(Mark { start: 0, count: 0 })?;
    }
    Ok(marks)
}

/// The number of a destination: the clients come first, and then the servers by site and index.
#[tactic(auto, unfolding(crate::specs::Destinations::key_of))]
pub fn key(to: Dest) -> usize
    ensures is { result ≡ key_of to }
    ensures within { key_of to < 65792 }
{
    match to {
        Dest::Client(client) => client.0 as usize,
        Dest::Server(server) => (server.site as usize + 1) * 256 + server.index as usize,
    }
}

/// The mark of a destination.
#[tactic(auto, unfolding(crate::specs::Destinations::mark_at))]
pub fn mark_of(marks: &Seq<Mark>, to: Dest) -> Mark
    ensures is { result ≡ mark_at marks.now (key_of to) }
    ensures within { key_of to < 65792 }
{
    match marks.get(key(to)) {
        Some(mark) => *mark,
        None => Mark { start: 0, count: 0 },
    }
}

/// Writes the mark of a destination.
#[tactic(auto, unfolding(crate::specs::Destinations::mark_at))]
pub fn set_mark(marks: &mut Seq<Mark>, to: Dest, mark: Mark)
    requires { length marks.old ≡ 65792 }
    ensures sets { SetsMark marks.old marks.new (key_of to) mark }
    ensures size { length marks.new ≡ 65792 }
{
    marks.set(key(to), mark);
}
