ghost use Rattle.std.specs.Prelude.{◌≡◌, ℕ, ◌+◌, ◌-◌, ◌^◌, ◌<◌, ◌≤◌, IfOk, OnOk, OnErr, IsOkUnless};
ghost use Rattle.std.specs.Option.{option_copied};
ghost use Rattle.st_fields.specs.declared.error.WordsError.TheVariants as words;
ghost use Rattle.st_words.specs.declared.statement.Statement.TheVariants as statements;
ghost use Rattle.st_protocol.specs.State.{Here as At};
ghost use Rattle.st_protocol.specs.Growth.{hand_takes, hand_cuts};
ghost use Rattle.st_tables.specs.Window.{kept};
ghost use Rattle.st_state.specs.HereView.{Serve, here_of};
ghost use Rattle.st_state.specs.HandView.{hand_of, no_hand, heard_accept, Keeps};

use st_fields::{Copied, Shared, WordsError};
use st_message::Here;
use st_seal::Quorum;
use st_tables::{Ring, Table};
use st_words::{Number, SiteId, Value, View};
use std::alloc::Global;

/// What a site's Accept certificate of a number and a view names.
#[derive(Drop)]
pub struct Named {
    pub value: Value,
    pub quorum: Quorum,
}

/// The Accept certificates of a number at the highest view that was heard for it: one per site.
#[derive(Drop)]
pub struct Words {
    pub view: u32,
    pub sites: Table<Named>,
}

/// What is in hand: per number of the window the Accept certificates at its highest view.
#[derive(Drop)]
pub struct Hand {
    numbers: Ring<Words>,
}

#[tactic(auto, unfolding(crate::specs::HandView::hand_of))]
impl Hand {
    /// An empty hand.
    pub fn new(alloc: Global) -> Result<Hand, WordsError>
        ensures empty { IfOk result (λ hand. (at : At) → hand_of at hand ≡ no_hand) }
        ensures memory { IsOkUnless result words.OutOfMemory }
    {
        Ok(Hand {
            numbers: Ring::new(alloc)?,
        })
    }

    /// What is kept of a number, if anything is.
    pub fn words(&self, here: &Here, number: u32) -> Option<&Words>
        ensures { option_copied result ≡ kept here.now.executed self.now.numbers number }
    {
        self.numbers.get(here.executed, number)
    }

    /// Keeps a site's Accept certificate of a number: one of a higher view than those kept takes their
    /// place, one of a lower is dropped; of two of a site and view the first stays, and one of an executed
    /// number is dropped.
    pub fn keep_accept(
        &mut self,
        alloc: Global,
        here: &Here,
        site: SiteId,
        view: View,
        number: Number,
        value: &Value,
        quorum: &Quorum,
    ) -> Result<(), WordsError>
        requires below { number.0 ≤ here.now.executed + 16 }
        ensures ok { OnOk result ((clients : ℕ) (serve : Serve) → let h = here_of clients serve here.now in hand_of h self.new ≡ hand_cuts h (hand_takes (heard_accept site view number value.now quorum.now) (hand_of h self.old))) }
        ensures err { OnErr result (self.new ≡ self.old) }
        ensures memory { IsOkUnless result words.OutOfMemory }
    {
        if number.0 <= here.executed {
            return Ok(());
        }
        let words = self.numbers.get(here.executed, number.0);
        if let Some(words) = with_named(alloc, words, site, view, value, quorum)? {
            self.numbers.set(number.0, Some(words));
        }
        Ok(())
    }

    /// Moves the window up by the number that is executed, of which all is dropped.
    pub fn move_up(&mut self, here: &Here)
        requires { here.now.executed < 2 ^ 32 - 1 }
        ensures { (clients : ℕ) (serve : Serve) → let h = here_of clients serve here.now in hand_of (record h { executed = h.executed + 1 }) self.new ≡ hand_cuts (record h { executed = h.executed + 1 }) (hand_of h self.old) }
    {
        self.numbers.move_up(here.executed);
    }

    /// An equal value.
    pub fn copy(&self, alloc: Global) -> Result<Hand, WordsError>
        ensures equal { IfOk result (λ copy. copy ≡ self.now) }
        ensures memory { IsOkUnless result words.OutOfMemory }
    {
        Ok(Hand {
            numbers: self.numbers.copy(alloc)?,
        })
    }
}

// The words with this site's, or None where they stay as they are.
fn with_named(
    alloc: Global,
    old: Option<&Words>,
    site: SiteId,
    view: View,
    value: &Value,
    quorum: &Quorum,
) -> Result<Option<Shared<Words>>, WordsError>
    ensures ok { IfOk result (λ new. Keeps (option_copied old.entry) new site.0 view.0 (record { value = value.now; quorum = quorum.now })) }
    ensures memory { IsOkUnless result words.OutOfMemory }
{
    let mut sites = match old {
        Some(old) if view.0 < old.view => return Ok(None),
        Some(old) if view.0 == old.view => old.sites.copy(alloc)?,
        _ => Table::new(alloc, 0)?,
    };
    if sites.get(site.0 as usize).is_some() {
        return Ok(None);
    }
    let named = share_named(alloc, value, quorum)?;
    sites.put(site.0 as usize, Some(named))?;
    let words = Shared::new(
        alloc,
        Words {
            view: view.0,
            sites,
        },
    )?;
    Ok(Some(words))
}

fn share_named(alloc: Global, value: &Value, quorum: &Quorum) -> Result<Shared<Named>, WordsError>
    ensures equal { IfOk result (λ named. named ≡ record { value = value.now; quorum = quorum.now }) }
    ensures memory { IsOkUnless result words.OutOfMemory }
{
    let value = value.copy(alloc)?;
    let quorum = quorum.copy(alloc)?;
    let named = Shared::new(alloc, Named { value, quorum })?;
    Ok(named)
}
