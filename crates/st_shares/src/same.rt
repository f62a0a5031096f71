ghost use Rattle.std.specs.Prelude.{◌≡◌};
ghost use Rattle.std.specs.Option.{option_copied};
ghost use Rattle.st_protocol.specs.Words as words;
ghost use Rattle.st_protocol.specs.Step as step;

use st_fields::Same;
use st_message::Share;
use st_words::{Statement, Update, Value};

/// Whether two updates are the same.
pub fn same_update(a: &Update, b: &Update) -> bool
    ensures { result ≡ words.same_update a.now b.now }
{
    a.same(b)
}

/// Whether two values are the same.
pub fn same_value(a: &Value, b: &Value) -> bool
    ensures { result ≡ words.same_value a.now b.now }
{
    a.same(b)
}

/// Whether two statements are the same.
#[tactic(auto, using(st_protocol::proofs::SameLaws::same_statement_by))]
pub fn same_statement(a: &Statement, b: &Statement) -> bool
    ensures { result ≡ words.same_statement a.now b.now }
{
    a.same(b)
}

/// Whether there is a share and it is over the statement.
pub fn says(share: Option<&Share>, statement: &Statement) -> bool
    ensures { result ≡ step.says statement.now (option_copied share.entry) }
{
    match share {
        Some(share) => same_statement(&share.statement, statement),
        None => false,
    }
}
