ghost use Rattle.std.specs.Prelude.{◌≡◌, ◌≢◌, ◌≤◌, ◌+◌, ℕ, List, Some, Ok, Err, true, false, map, drop, string_bytes, IfOk};
ghost use Rattle.st_io.specs.Causes.{Rose};
ghost use Rattle.st_io.specs.Streams.{Adds, AddsFront};
ghost use Rattle.st_run.specs.Answers.{is_replay};
ghost use Rattle.st_run.specs.declared.answer.Answer.{Answer};
ghost use Rattle.st_run.specs.Outcomes.{EndsReplay, Gave, GaveFront, IsAnswerTo, IsAnswered};
ghost use Rattle.st_run.specs.Promised.{IsPromised};
ghost use Rattle.st_run.specs.declared.status.Status.TheVariants as statuses;
ghost use Rattle.st_run.specs.declared.program.Stopped.TheVariants as stops;

use crate::answer::{Answer, bytes_answer, is_replay, too_large, usage};
use crate::status::Status;
use st_fields::WordsError;
use st_input::MOST_INPUT;
use st_io::{ReadError, Sink, SinkError, Source, read_all, write_all};
use std::alloc::Global;

/// Why there is no answer.
#[derive(Clone, Copy)]
enum Stopped {
    /// A read failed.
    ReadFault,
    /// Memory was refused.
    OutOfMemory,
}

impl From<WordsError> for Stopped {
    ghost from_gives = { λ _ e. e ≡ stops.OutOfMemory };

    fn from(_: WordsError) -> Stopped {
        Stopped::OutOfMemory
    }
}

/// Runs the program that these words name, with the source as its input and the sink as its output.
///
/// The source is read only for `replay`, to its end, and at most one byte more than an input has. The
/// text is built before its first byte is written. A report is that of a world which keeps its promises:
/// correct servers' logs agree, each update in them was sealed by its client and ran at most once, and the
/// event that completed a number's proof executed it. ReadFault comes only where the source counted a
/// fault, and WriteFault only where the sink did; WriteFault goes before every other status. Where memory is
/// refused, nothing is written unless the sink refused it, and then a front of the text is. Whatever the
/// source tells, Usage comes only for other words than `replay`, and a replay has no disk, link or journal
/// that could fail it.
pub fn run<S: Source, K: Sink>(
    alloc: Global,
    words: &Vec<String>,
    source: &mut S,
    sink: &mut K,
) -> Status
    ensures usage { result ≡ statuses.Usage → is_replay (map string_bytes words.now.items) ≡ false }
    ensures replayed { is_replay (map string_bytes words.now.items) ≡ true → EndsReplay result }
    ensures answered { (answer : Answer) → IsAnswerTo (map string_bytes words.now.items) (S.left source.old) answer → IsAnswered result → Gave result answer (K.taken sink.old) (K.taken sink.new) }
    ensures promised { result ≡ statuses.Ok → (bytes : List ℕ) → S.left source.old ≡ Some bytes → IsPromised bytes }
    ensures unread { is_replay (map string_bytes words.now.items) ≡ false → S.left source.new ≡ S.left source.old }
    ensures rest { is_replay (map string_bytes words.now.items) ≡ true → (input : List ℕ) → S.left source.old ≡ Some input → IsAnswered result → S.left source.new ≡ Some (drop (MOST_INPUT + 1) input) }
    ensures whole { IsAnswered result → result ≢ statuses.TooLarge → S.faults source.new ≡ S.faults source.old }
    ensures read { result ≡ statuses.ReadFault → Rose (S.faults source.old) (S.faults source.new) }
    ensures write { result ≡ statuses.WriteFault → Rose (K.faults sink.old) (K.faults sink.new) }
    ensures no_fault { result ≢ statuses.WriteFault → result ≢ statuses.OutOfMemory → K.faults sink.new ≡ K.faults sink.old }
    ensures silent { result ≡ statuses.ReadFault → K.taken sink.new ≡ K.taken sink.old }
    ensures cut { (answer : Answer) → IsAnswerTo (map string_bytes words.now.items) (S.left source.old) answer → result ≡ statuses.WriteFault → AddsFront (K.taken sink.old) (K.taken sink.new) answer.text }
    ensures memory { (answer : Answer) → IsAnswerTo (map string_bytes words.now.items) (S.left source.old) answer → result ≡ statuses.OutOfMemory → GaveFront answer (K.taken sink.old) (K.taken sink.new) }
{
    match answer(alloc, words.as_slice(), source) {
        Ok(answer) => give(sink, &answer),
        Err(Stopped::ReadFault) => Status::ReadFault,
        Err(Stopped::OutOfMemory) => Status::OutOfMemory,
    }
}

/// The answer to the words and, where they are `replay`, to what the source gives.
fn answer<S: Source>(alloc: Global, words: &[String], source: &mut S) -> Result<Answer, Stopped>
    ensures usage { IfOk result (λ answer. answer.status ≡ statuses.Usage → is_replay (map string_bytes words.now) ≡ false) }
    ensures replayed { is_replay (map string_bytes words.now) ≡ true → IfOk result (λ answer. EndsReplay answer.status) }
    ensures told { (answer : Answer) → IsAnswerTo (map string_bytes words.now) (S.left source.old) answer → IfOk result (λ x. x ≡ answer) }
    ensures promised { (bytes : List ℕ) → S.left source.old ≡ Some bytes → IfOk result (λ answer. answer.status ≡ statuses.Ok → IsPromised bytes) }
    ensures unread { is_replay (map string_bytes words.now) ≡ false → S.left source.new ≡ S.left source.old }
    ensures rest { is_replay (map string_bytes words.now) ≡ true → (input : List ℕ) → S.left source.old ≡ Some input → IfOk result (λ _. S.left source.new ≡ Some (drop (MOST_INPUT + 1) input)) }
    ensures whole { IfOk result (λ answer. answer.status ≢ statuses.TooLarge → S.faults source.new ≡ S.faults source.old) }
    ensures failed { result ≡ Err stops.ReadFault → Rose (S.faults source.old) (S.faults source.new) }
    ensures answers { IfOk result (λ answer. IsAnswered answer.status) }
{
    if !is_replay(words) {
        return Ok(usage(alloc)?);
    }
    match read_all(alloc, source, MOST_INPUT) {
        Ok(bytes) => Ok(bytes_answer(alloc, bytes.as_slice())?),
        Err(ReadError::TooLong) => Ok(too_large(alloc, "input")?),
        Err(ReadError::Failed) => Err(Stopped::ReadFault),
        Err(ReadError::OutOfMemory) => Err(Stopped::OutOfMemory),
    }
}

/// Writes an answer's text, and says how that ended.
fn give<K: Sink>(sink: &mut K, answer: &Answer) -> Status
    requires { IsAnswered answer.now.status }
    ensures usage { result ≡ statuses.Usage → answer.now.status ≡ statuses.Usage }
    ensures replayed { EndsReplay answer.now.status → EndsReplay result }
    ensures gave { IsAnswered result → Gave result answer.now (K.taken sink.old) (K.taken sink.new) }
    ensures no_fault { result ≢ statuses.WriteFault → result ≢ statuses.OutOfMemory → K.faults sink.new ≡ K.faults sink.old }
    ensures write { result ≡ statuses.WriteFault → Rose (K.faults sink.old) (K.faults sink.new) }
    ensures cut { result ≡ statuses.WriteFault → AddsFront (K.taken sink.old) (K.taken sink.new) answer.now.text }
    ensures memory { result ≡ statuses.OutOfMemory → AddsFront (K.taken sink.old) (K.taken sink.new) answer.now.text }
    ensures read { result ≢ statuses.ReadFault }
{
    match write_all(sink, answer.text.as_slice()) {
        Ok(()) => answer.status,
        Err(SinkError::Failed) => Status::WriteFault,
        Err(SinkError::OutOfMemory) => Status::OutOfMemory,
    }
}
