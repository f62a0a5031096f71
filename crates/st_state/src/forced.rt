ghost use Rattle.std.specs.Prelude.{◌≡◌, ℕ, ◌+◌, ◌/◌, cond, nat_lt, IfOk, IsOkUnless};
ghost use Rattle.std.specs.Option.{option_copied};
ghost use Rattle.st_fields.specs.declared.error.WordsError.TheVariants as words;
ghost use Rattle.st_protocol.specs.Forced.{forced_of, waits as is_waiting};
ghost use Rattle.st_protocol.specs.State.{Here as At};
ghost use Rattle.st_state.specs.HereView.{Serve, here_of};
ghost use Rattle.st_state.specs.ForcedView.{forced_by, no_unions};

use st_fields::{Copied, WordsError};
use st_message::Here;
use st_tables::Ring;
use st_words::Value;
use std::alloc::Global;

/// What the held unions say of the window: which numbers have a value that they force, their base, and
/// how many of them are held and wanted, 0 and 0 where none is missing.
#[derive(Drop)]
pub struct Forced {
    values: Ring<Value>,
    /// At least the executed count; a number up to it takes no new value.
    pub base: u32,
    pub held: u32,
    pub wanted: u32,
}

#[tactic(auto, unfolding(crate::specs::ForcedView::forced_by))]
impl Forced {
    /// What is forced where no union is held: nothing, and where the view is above 0 a majority of
    /// unions are wanted, else where the local view is above 0 one is.
    #[tactic(auto, using(crate::proofs::ForcedLaws::no_union_forces), unfolding(crate::specs::ForcedView::forced_by))]
    pub fn without_unions(alloc: Global, here: &Here) -> Result<Forced, WordsError>
        ensures equal { IfOk result (λ forced. (clients : ℕ) (serve : Serve) → let h = here_of clients serve here.now in forced_by h forced ≡ forced_of h no_unions) }
        ensures memory { IsOkUnless result words.OutOfMemory }
    {
        let values = Ring::new(alloc)?;
        Ok(Forced {
            values,
            base: here.executed,
            held: 0,
            wanted: wanted_unions(here),
        })
    }

    /// The value that a number of the window must have, if there is one.
    pub fn value(&self, here: &Here, number: u32) -> Option<&Value>
        ensures { (clients : ℕ) (serve : Serve) → option_copied result ≡ (forced_by (here_of clients serve here.now) self.now).value number }
    {
        self.values.get(here.executed, number)
    }

    /// Whether unions are missing.
    pub fn waits(&self) -> bool
        ensures { (at : At) → result ≡ is_waiting (forced_by at self.now) }
    {
        self.held < self.wanted
    }

    /// An equal value.
    pub fn copy(&self, alloc: Global) -> Result<Forced, WordsError>
        ensures equal { IfOk result (λ copy. copy ≡ self.now) }
        ensures memory { IsOkUnless result words.OutOfMemory }
    {
        Ok(Forced {
            values: self.values.copy(alloc)?,
            base: self.base,
            held: self.held,
            wanted: self.wanted,
        })
    }
}

// How many unions are wanted where none is held: those of a majority of sites in a view above 0, else
// the site's own in a local view above 0.
fn wanted_unions(here: &Here) -> u32
    ensures { result ≡ cond (nat_lt 0 here.now.view.0) (here.now.sites / 2 + 1) (cond (nat_lt 0 here.now.local.0) 1 0) }
{
    if here.view.0 > 0 {
        here.sites as u32 / 2 + 1
    } else if here.local.0 > 0 {
        1
    } else {
        0
    }
}
