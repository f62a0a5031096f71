ghost use Rattle.std.specs.Prelude.{◌≡◌, ◌⊎◌, ◌<◌, ◌≤◌, ◌==◌, ◌&&◌, IsTrue, OnOk, OnErr, Ok};

use crate::error::FlatError;
use crate::ordered::Ordered;
use crate::registers::Registers;
use crate::slot::Register;
use st_words::{Copied, Same, Seq, Value};
use std::alloc::Global;
use std::marker::Model;

/// A flat world: what was proposed, each member's registers, and the log. Each call that answers Ok is
/// one flat step, or changes nothing where the step was taken before; each refusal leaves all as it was.
#[derive(Drop)]
pub struct Flat {
    registers: Registers,
    log: Seq<Ordered>,
}

impl Model for Flat {
    ghost use Rattle.st_registers.specs.FlatWorld.{FlatWorld, IsSound};

    ghost Value = { FlatWorld };

    ghost view = { λ f. record { table = f.registers; log = f.log } };

    ghost invariant = { λ f. IsSound (record { table = f.registers; log = f.log }) };
}

impl Flat {
    ghost use Rattle.st_words.specs.declared.value.Value.{Value};
    ghost use Rattle.st_counts.specs.Counts.{HasMajority};
    ghost use Rattle.st_registers.specs.Answers.{ProposeAnswers, AcceptAnswers, CloseAnswers, OrderAnswers};
    ghost use Rattle.st_registers.specs.FlatWorld.{empty, tests_of, is_logged, HasOneValue};
    ghost use Rattle.st_registers.specs.Steps.{At, Proposes, Accepts, Closes, Orders};

    /// The flat world in which nothing has happened. Takes no memory.
    pub fn new(alloc: Global, members: u32) -> Result<Flat, FlatError>
        requires { (1 ≤ members) × (members ≤ 49) }
        ensures { result ≡ Ok (empty members) }
    {
        Ok(Flat {
            registers: Registers::new(alloc, members),
            log: Seq::new(alloc),
        })
    }

    /// Proposes the value in the view at the number. Taken where another value is proposed there, else
    /// Unsafe where the value isn't safe there. A value that is proposed there already stays so.
    pub fn propose(
        &mut self,
        alloc: Global,
        view: u32,
        number: u32,
        value: &Value,
    ) -> Result<(), FlatError>
        ensures answer { ProposeAnswers (tests_of self.old number) view value.now result }
        ensures step { OnOk result
            ((IsTrue ((tests_of self.old number).proposed view value.now) × (self.new ≡ self.old))
            ⊎ At number (λ a b. Proposes a b view value.now) (tests_of self.old) (tests_of self.new)) }
        ensures err { OnErr result (self.new ≡ self.old) }
        ensures members { self.new.table.members ≡ self.old.table.members }
    {
        if let Some(standing) = self.registers.proposed(view, number) {
            if standing.same(value) {
                return Ok(());
            }
            return Err(FlatError::Taken);
        }
        if !self.registers.is_safe(view, number, value) {
            return Err(FlatError::Unsafe);
        }
        let value = value.copy(alloc)?;
        self.registers.propose(alloc, view, number, value)?;
        Ok(())
    }

    /// Has the member accept the value that is proposed in the view at the number. NotProposed where
    /// none is, else Written where the member's register there isn't unwritten.
    pub fn accept(
        &mut self,
        alloc: Global,
        member: u32,
        view: u32,
        number: u32,
    ) -> Result<(), FlatError>
        requires { member < self.old.table.members }
        ensures answer { AcceptAnswers (tests_of self.old number) member view result }
        ensures step { OnOk result
            ((v : Value) × At number (λ a b. Accepts a b member view v) (tests_of self.old) (tests_of self.new)) }
        ensures err { OnErr result (self.new ≡ self.old) }
        ensures members { self.new.table.members ≡ self.old.table.members }
    {
        let Some(_) = self.registers.proposed(view, number) else {
            return Err(FlatError::NotProposed);
        };
        if !self.registers.register(member, view, number).is_unwritten() {
            return Err(FlatError::Written);
        }
        self.registers
            .write(alloc, member, view, number, Register::Accepted)?;
        Ok(())
    }

    /// Closes the member's register of the view and number. Written where it isn't unwritten.
    pub fn close(
        &mut self,
        alloc: Global,
        member: u32,
        view: u32,
        number: u32,
    ) -> Result<(), FlatError>
        requires { member < self.old.table.members }
        ensures answer { CloseAnswers (tests_of self.old number) member view result }
        ensures step { OnOk result
            (At number (λ a b. Closes a b (λ m h. m == member && h == view)) (tests_of self.old) (tests_of self.new)) }
        ensures err { OnErr result (self.new ≡ self.old) }
        ensures members { self.new.table.members ≡ self.old.table.members }
    {
        if !self.registers.register(member, view, number).is_unwritten() {
            return Err(FlatError::Written);
        }
        self.registers
            .write(alloc, member, view, number, Register::Closed)?;
        Ok(())
    }

    /// Puts the value that a majority has accepted in the view at the number into the log. NoMajority
    /// where there is none. A value that the log has already stays there once.
    #[tactic(auto, using(crate::proofs::FlatLaws::sound_one_value))]
    pub fn order(&mut self, alloc: Global, number: u32, view: u32) -> Result<(), FlatError>
        ensures answer { OrderAnswers (tests_of self.old number) view result }
        ensures step { OnOk result
            ((v : Value) × HasMajority (tests_of self.old number).members (λ m. (tests_of self.old number).accepted m view v)
            × At number (λ a b. Orders a b v) (tests_of self.old) (tests_of self.new)) }
        ensures err { OnErr result (self.new ≡ self.old) }
        ensures members { self.new.table.members ≡ self.old.table.members }
        ensures one_value { HasOneValue self.new.log }
    {
        let Some(value) = self.registers.proposed(view, number) else {
            return Err(FlatError::NoMajority);
        };
        if !self.registers.has_accepted(view, number) {
            return Err(FlatError::NoMajority);
        }
        if self.has_ordered(number, value) {
            return Ok(());
        }
        let value = value.copy(alloc)?;
        self.log.push(Ordered { number, value })?;
        Ok(())
    }

    /// Whether the log has the value at the number.
    fn has_ordered(&self, number: u32, value: &Value) -> bool
        ensures { result ≡ is_logged self.now.log number value.now }
    {
        self.log.as_slice().iter().any(|ordered| ordered.number == number
            && ordered.value.same(value))
    }
}
