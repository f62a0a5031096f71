ghost use Rattle.std.specs.Prelude.{◌≡◌, ℕ};
ghost use Rattle.std.specs.Option.{option_copied};
ghost use Rattle.st_protocol.specs.State.{AtPrepare, AtProposal, AtAccept};
ghost use Rattle.st_state.specs.HereView.{Serve, here_of};
ghost use Rattle.st_state.specs.SlotsView.{slots_of};
ghost use Rattle.st_state.specs.Writes.{among};

use st_message::{Here, Sealing, Share};
use st_state::Slots;
use st_tables::Table;
use st_words::{LocalView, Number, View};

/// Where a Prepare or a Proposal stands.
#[derive(Clone, Copy, Debug, PartialEq, Eq)]
pub struct Slot {
    pub view: View,
    pub local: LocalView,
    pub number: Number,
}

/// The entry of a key among those of a row, if there is one.
pub fn entry_of<'a, T>(row: Option<&'a Table<T>>, key: usize) -> Option<&'a T>
    ensures { option_copied result ≡ among (option_copied row.entry) key }
{
    match row {
        Some(row) => row.get(key),
        None => None,
    }
}

/// The Prepare that this server made at a slot, if it made one.
#[tactic(auto, using(crate::proofs::PlaceLaws::no_prepare))]
pub fn made_prepare<'a>(here: &Here, slots: &'a Slots, slot: Slot) -> Option<&'a Sealing>
    ensures { (clients : ℕ) (serve : Serve) → option_copied result ≡ (slots_of (here_of clients serve here.now) slots.now).made (AtPrepare slot.view.0 slot.local.0 slot.number.0) }
{
    if slot.view == here.view && slot.local == here.local {
        slots.made_prepare(here, slot.number.0)
    } else {
        None
    }
}

/// The Proposal that this server made at a slot, if it made one.
#[tactic(auto, using(crate::proofs::PlaceLaws::no_proposal))]
pub fn made_proposal<'a>(here: &Here, slots: &'a Slots, slot: Slot) -> Option<&'a Sealing>
    ensures { (clients : ℕ) (serve : Serve) → option_copied result ≡ (slots_of (here_of clients serve here.now) slots.now).made (AtProposal slot.view.0 slot.local.0 slot.number.0) }
{
    if slot.view == here.view && slot.local == here.local {
        slots.made_proposal(here, slot.number.0)
    } else {
        None
    }
}

/// The Accept that this server made at a slot, if it made one.
#[tactic(auto, using(crate::proofs::PlaceLaws::no_accept))]
pub fn made_accept<'a>(
    here: &Here,
    slots: &'a Slots,
    view: View,
    number: Number,
) -> Option<&'a Sealing>
    ensures { (clients : ℕ) (serve : Serve) → option_copied result ≡ (slots_of (here_of clients serve here.now) slots.now).made (AtAccept view.0 number.0) }
{
    if view == here.view {
        slots.made_accept(here, number.0)
    } else {
        None
    }
}

/// The kept shares of a Prepare's slot, by index.
#[tactic(auto, using(crate::proofs::PlaceLaws::no_prepare_shares))]
pub fn prepare_row<'a>(here: &Here, slots: &'a Slots, slot: Slot) -> Option<&'a Table<Share>>
    ensures { (clients : ℕ) (serve : Serve) → among (option_copied result) ≡ (slots_of (here_of clients serve here.now) slots.now).shares (AtPrepare slot.view.0 slot.local.0 slot.number.0) }
{
    if slot.view == here.view && slot.local == here.local {
        slots.prepare_shares(here, slot.number.0)
    } else {
        None
    }
}

/// The kept shares of a Proposal's slot, by index.
#[tactic(auto, using(crate::proofs::PlaceLaws::no_proposal_shares))]
pub fn proposal_row<'a>(here: &Here, slots: &'a Slots, slot: Slot) -> Option<&'a Table<Share>>
    ensures { (clients : ℕ) (serve : Serve) → among (option_copied result) ≡ (slots_of (here_of clients serve here.now) slots.now).shares (AtProposal slot.view.0 slot.local.0 slot.number.0) }
{
    if slot.view == here.view && slot.local == here.local {
        slots.proposal_shares(here, slot.number.0)
    } else {
        None
    }
}

/// The kept shares of an Accept's slot, by index.
#[tactic(auto, using(crate::proofs::PlaceLaws::no_accept_shares))]
pub fn accept_row<'a>(
    here: &Here,
    slots: &'a Slots,
    view: View,
    number: Number,
) -> Option<&'a Table<Share>>
    ensures { (clients : ℕ) (serve : Serve) → among (option_copied result) ≡ (slots_of (here_of clients serve here.now) slots.now).shares (AtAccept view.0 number.0) }
{
    if view == here.view {
        slots.accept_shares(here, number.0)
    } else {
        None
    }
}
