ghost use Rattle.std.specs.Prelude.{◌≡◌, IfOk, IsOkUnless};
ghost use Rattle.st_fields.specs.declared.error.WordsError.TheVariants as words;
ghost use Rattle.st_words.specs.Ranges.{KeepsStatement, FitsStatement};
ghost use Rattle.st_made.specs.Keys.{party_spelling, key_spelling};

use crate::widths::statement_fits;
use st_fields::{WordsError, put_bytes};
use st_words::{Statement, Who, put_core};
use std::alloc::Global;

/// A party's bytes: its kind stands first, so that no client is taken for a server.
fn party_bytes(who: Who) -> [u8; 3]
    ensures { result ≡ party_spelling who }
{
    match who {
        Who::Server(server) => [0, server.site, server.index],
        Who::Client(client) => [1, client.0, 0],
    }
}

/// The bytes under which a party's seal over a statement is kept.
#[tactic(auto, unfolding(crate::specs::Keys::key_spelling))]
pub fn key_of(alloc: Global, who: Who, statement: &Statement) -> Result<Vec<u8>, WordsError>
    requires { KeepsStatement statement.now }
    ensures spelled { IfOk result (λ key. key.items ≡ key_spelling who statement.now) }
    ensures memory { IsOkUnless result words.OutOfMemory }
    ensures fits { FitsStatement statement.now }
{
    statement_fits(statement);
    let mut key = Vec::new(alloc);
    put_bytes(&mut key, &party_bytes(who))?;
    put_core(&mut key, statement)?;
    Ok(key)
}
