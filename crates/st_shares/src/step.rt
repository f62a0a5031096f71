ghost use Rattle.std.specs.Prelude.{◌≡◌, ℕ, ◌*◌, ◌<◌, true, [], ◌∷◌, IfOk, IsOkUnless};
ghost use Rattle.std.specs.Option.{option_copied};
ghost use Rattle.st_fields.specs.declared.error.WordsError.TheVariants as words;
ghost use Rattle.st_message.specs.declared.message.Message.TheVariants as messages;
ghost use Rattle.st_protocol.specs.Step as steps;
ghost use Rattle.st_state.specs.HereView.{Serve, here_of};
ghost use Rattle.st_state.specs.Writes.{among};

use crate::counting::completes;
use crate::quorums::completed;
use st_fields::{Copied, Seq, WordsError};
use st_message::{Change, Form, Heard, HeardList, Here, Message, Out, Scope, Share, Step};
use st_seal::{Quorum, Signed};
use st_tables::Table;
use st_words::Statement;
use std::alloc::Global;

/// The list of one element.
pub fn only<T: Drop>(alloc: Global, item: T) -> Result<Seq<T>, WordsError>
    ensures equal { IfOk result (λ seq. seq ≡ item ∷ []) }
    ensures memory { IsOkUnless result words.OutOfMemory }
{
    let mut seq = Seq::new(alloc);
    seq.push(item)?;
    Ok(seq)
}

/// The step that does nothing.
pub fn idle(alloc: Global) -> Step
    ensures { result ≡ steps.idle }
{
    Step {
        changes: Seq::new(alloc),
        heard: Seq::new(alloc),
        out: Seq::new(alloc),
    }
}

/// One step and then another.
pub fn then(first: Step, second: Step) -> Result<Step, WordsError>
    ensures equal { IfOk result (λ step. step ≡ steps.then first second) }
    ensures memory { IsOkUnless result words.OutOfMemory }
{
    let Step {
        mut changes,
        mut heard,
        mut out,
    } = first;
    changes.append(second.changes)?;
    heard.append(second.heard)?;
    out.append(second.out)?;
    Ok(Step {
        changes,
        heard,
        out,
    })
}

/// The statement is made with this leaf, and goes out.
pub fn making(
    alloc: Global,
    leaf: u32,
    statement: Statement,
    form: Form,
    to: Scope,
) -> Result<Step, WordsError>
    ensures equal { IfOk result (λ step. step ≡ steps.making leaf statement form to) }
    ensures memory { IsOkUnless result words.OutOfMemory }
{
    let copy = statement.copy(alloc)?;
    let changes = only(
        alloc,
        Change::Made {
            leaf,
            statement: copy,
        },
    )?;
    let out = only(
        alloc,
        Out::Make {
            statement,
            form,
            to,
        },
    )?;
    Ok(Step {
        changes,
        heard: Seq::new(alloc),
        out,
    })
}

/// The change is recorded.
pub fn recording(alloc: Global, change: Change) -> Result<Step, WordsError>
    ensures equal { IfOk result (λ step. step ≡ steps.recording change) }
    ensures memory { IsOkUnless result words.OutOfMemory }
{
    let changes = only(alloc, change)?;
    Ok(Step {
        changes,
        heard: Seq::new(alloc),
        out: Seq::new(alloc),
    })
}

/// The message is kept, as another's.
pub fn keeping(alloc: Global, message: Message) -> Result<Step, WordsError>
    ensures equal { IfOk result (λ step. step ≡ steps.keeping message) }
    ensures memory { IsOkUnless result words.OutOfMemory }
{
    let heard = only(
        alloc,
        Heard {
            own: false,
            message,
        },
    )?;
    Ok(Step {
        changes: Seq::new(alloc),
        heard,
        out: Seq::new(alloc),
    })
}

/// Something goes out.
pub fn putting(alloc: Global, out: Out) -> Result<Step, WordsError>
    ensures equal { IfOk result (λ step. step ≡ steps.putting out) }
    ensures memory { IsOkUnless result words.OutOfMemory }
{
    let out = only(alloc, out)?;
    Ok(Step {
        changes: Seq::new(alloc),
        heard: Seq::new(alloc),
        out,
    })
}

/// The message is sent, and kept as this server's own.
pub fn completing(alloc: Global, message: Message, to: Scope) -> Result<Step, WordsError>
    ensures equal { IfOk result (λ step. step ≡ steps.completing message to) }
    ensures memory { IsOkUnless result words.OutOfMemory }
{
    let heard = own_heard(alloc, &message)?;
    let out = only(alloc, Out::Send { message, to })?;
    Ok(Step {
        changes: Seq::new(alloc),
        heard,
        out,
    })
}

// A message that this server sent, to keep.
fn own_heard(alloc: Global, message: &Message) -> Result<HeardList, WordsError>
    ensures equal { IfOk result (λ heard. heard ≡ record { own = true; message = message.now } ∷ []) }
    ensures memory { IsOkUnless result words.OutOfMemory }
{
    let message = message.copy(alloc)?;
    let heard = only(alloc, Heard { own: true, message })?;
    Ok(heard)
}

/// The share of the statement is kept.
pub fn keeping_share(
    alloc: Global,
    statement: &Statement,
    signed: &Signed,
) -> Result<Step, WordsError>
    ensures equal { IfOk result (λ step. step ≡ steps.keeping (messages.Share statement.now signed.now)) }
    ensures memory { IsOkUnless result words.OutOfMemory }
{
    let statement = statement.copy(alloc)?;
    let signed = signed.copy(alloc)?;
    let step = keeping(alloc, Message::Share { statement, signed })?;
    Ok(step)
}

/// The share is kept; where it completes its slot, the certificate is sent and kept as this server's own.
pub fn certifies(
    alloc: Global,
    here: &Here,
    row: Option<&Table<Share>>,
    statement: &Statement,
    signed: &Signed,
    to: Scope,
) -> Result<Step, WordsError>
    requires { 3 * here.now.f < 256 }
    ensures equal { IfOk result (λ step. (clients : ℕ) (serve : Serve) → step ≡ steps.certifies (here_of clients serve here.now) (among (option_copied row.entry)) statement.now signed.now to) }
    ensures memory { IsOkUnless result words.OutOfMemory }
{
    let kept = keeping_share(alloc, statement, signed)?;
    if !completes(here, row, statement, signed) {
        return Ok(kept);
    }
    let quorum = completed(alloc, here, row, statement, signed)?;
    let sent = certifying(alloc, statement, quorum, to)?;
    let step = then(kept, sent)?;
    Ok(step)
}

// The statement's certificate is sent, and kept as this server's own.
fn certifying(
    alloc: Global,
    statement: &Statement,
    quorum: Quorum,
    to: Scope,
) -> Result<Step, WordsError>
    ensures equal { IfOk result (λ step. step ≡ steps.completing (messages.Certificate statement.now quorum) to) }
    ensures memory { IsOkUnless result words.OutOfMemory }
{
    let statement = statement.copy(alloc)?;
    let step = completing(alloc, Message::Certificate { statement, quorum }, to)?;
    Ok(step)
}
