ghost use Rattle.std.specs.Prelude.{◌≡◌, ◌↔◌, [], IsTrue, IfOk, OnOk, OnErr, IsOkUnless, position, MatchBool, MatchOption, ◌<◌, None, IsSome, false};
ghost use Rattle.std.specs.Option.{option_copied};
ghost use Rattle.st_registers.specs.declared.error.FlatError.TheVariants as flat;

use crate::error::FlatError;
use crate::slot::{Register, Slot, is_majority};
use st_words::{Same, Seq, Value};
use std::alloc::Global;
use std::marker::Model;

/// The proposals of a flat world and the registers of its members, by view and number.
#[derive(Drop)]
pub struct Registers {
    members: u32,
    slots: Vec<Slot>,
}

impl Model for Registers {
    ghost use Rattle.st_registers.specs.Slots.{Table, IsTable};

    ghost Value = { Table };

    ghost view = { λ r. record { members = r.members; slots = r.slots.items } };

    ghost invariant = { λ r. IsTable (record { members = r.members; slots = r.slots.items }) };
}

impl Registers {
    ghost use Rattle.st_counts.specs.Counts.{count, HasMajority, numbers_below};
    ghost use Rattle.st_registers.specs.Answers.{IsUnsafe};
    ghost use Rattle.st_registers.specs.FlatWorld.{tests_in};
    ghost use Rattle.st_registers.specs.Slots.{is_at, is_accepted, is_safe_view, proposed_in, register_in, slot_at, IsTable, Places, SetsProposal, SetsRegister};
    ghost use Rattle.st_registers.specs.Tests.{Safe};

    /// Where nothing was said. Takes no memory.
    pub fn new(alloc: Global, members: u32) -> Registers
        ensures { result ≡ record { members = members; slots = [] } }
    {
        Registers {
            members,
            slots: Vec::new(alloc),
        }
    }

    /// The slot of the view and number, if something was said there.
    pub fn find(&self, view: u32, number: u32) -> Option<&Slot>
        ensures slot { option_copied result ≡ slot_at self.now view number }
        ensures table { IsTable self.now }
    {
        self.slots
            .iter()
            .find(|slot| slot.view == view && slot.number == number)
    }

    /// The value that is proposed in the view at the number.
    pub fn proposed(&self, view: u32, number: u32) -> Option<&Value>
        ensures { option_copied result ≡ proposed_in (slot_at self.now view number) }
    {
        match self.find(view, number) {
            None => None,
            Some(slot) => slot.proposed.as_ref(),
        }
    }

    /// The member's register of the view and number.
    pub fn register(&self, member: u32, view: u32, number: u32) -> Register
        ensures value { result ≡ register_in (slot_at self.now view number) member }
        ensures backed { IsTrue (is_accepted result) → IsSome (proposed_in (slot_at self.now view number)) }
    {
        match self.find(view, number) {
            None => Register::Unwritten,
            Some(slot) => slot.register(member),
        }
    }

    /// Whether each view below `view` has the value proposed at the number, or a majority of the
    /// registers closed.
    pub fn is_safe(&self, view: u32, number: u32, value: &Value) -> bool
        ensures { MatchBool result (Safe (tests_in self.now number (λ _. false)) view value.now)
            (IsUnsafe (tests_in self.now number (λ _. false)) view value.now) }
    {
        self.safe_views(view, number, value) >= view as usize
    }

    /// In how many views below `view` the slot of the number lets the value be proposed in higher ones.
    #[tactic(auto, using(st_counts::proofs::CountLaws::count_is_count_by))]
    fn safe_views(&self, view: u32, number: u32, value: &Value) -> usize
        ensures count { result ≡ count (is_safe_view view number self.now.members value.now) self.now.slots }
        ensures table { IsTable self.now }
    {
        let members = self.members;
        self.slots
            .iter()
            .filter(|slot| slot.is_safe_view(view, number, members, value))
            .count()
    }

    /// Whether a majority of the registers of the view and number is accepted.
    pub fn has_accepted(&self, view: u32, number: u32) -> bool
        ensures { IsTrue result ↔
            HasMajority (numbers_below self.now.members) (λ m. is_accepted (register_in (slot_at self.now view number) m)) }
    {
        match self.find(view, number) {
            None => false,
            Some(slot) => is_majority(slot.accepted_count(), self.members),
        }
    }

    /// The place of the slot of the view and number, if something was said there.
    fn position(&self, view: u32, number: u32) -> Option<usize>
        ensures { result ≡ position (is_at view number) self.now.slots }
    {
        self.slots
            .iter()
            .position(|slot| slot.view == view && slot.number == number)
    }

    /// The place of the slot of the view and number, which is made where there is none. Where memory is
    /// refused all is as before.
    #[tactic(auto, using(crate::proofs::TableLaws::position_none))]
    fn place(&mut self, alloc: Global, view: u32, number: u32) -> Result<usize, FlatError>
        ensures ok { IfOk result (λ place. Places self.old self.new view number place) }
        ensures err { OnErr result (self.new ≡ self.old) }
        ensures memory { IsOkUnless result flat.OutOfMemory }
    {
        match self.position(view, number) {
            Some(place) => Ok(place),
            None => {
                let place = self.add(alloc, view, number)?;
                Ok(place)
            }
        }
    }

    /// Adds a slot in which nothing is said, where there is none. Where memory is refused all is as
    /// before.
    fn add(&mut self, alloc: Global, view: u32, number: u32) -> Result<usize, FlatError>
        requires { slot_at self.old view number ≡ None }
        ensures ok { IfOk result (λ place. Places self.old self.new view number place) }
        ensures err { OnErr result (self.new ≡ self.old) }
        ensures memory { IsOkUnless result flat.OutOfMemory }
    {
        let place = self.slots.len();
        let slot = Slot::new(alloc, self.members, view, number)?;
        self.slots.push(slot)?;
        Ok(place)
    }

    /// Proposes the value in the view at the number, where none is proposed. Where memory is refused all
    /// is as before.
    pub fn propose(
        &mut self,
        alloc: Global,
        view: u32,
        number: u32,
        value: Value,
    ) -> Result<(), FlatError>
        requires { proposed_in (slot_at self.old view number) ≡ None }
        ensures ok { OnOk result (SetsProposal self.old self.new view number value) }
        ensures err { OnErr result (self.new ≡ self.old) }
        ensures memory { IsOkUnless result flat.OutOfMemory }
    {
        let place = self.place(alloc, view, number)?;
        self.slots[place].proposed = Some(value);
        Ok(())
    }

    /// Writes the member's register of the view and number. Where memory is refused all is as before.
    pub fn write(
        &mut self,
        alloc: Global,
        member: u32,
        view: u32,
        number: u32,
        register: Register,
    ) -> Result<(), FlatError>
        requires within { member < self.old.members }
        requires backed { IsTrue (is_accepted register) → IsSome (proposed_in (slot_at self.old view number)) }
        ensures ok { OnOk result (SetsRegister self.old self.new member view number register) }
        ensures err { OnErr result (self.new ≡ self.old) }
        ensures memory { IsOkUnless result flat.OutOfMemory }
    {
        let place = self.place(alloc, view, number)?;
        self.slots[place].registers.set(member as usize, register);
        Ok(())
    }
}
