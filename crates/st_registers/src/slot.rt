ghost use Rattle.std.specs.Prelude.{◌≡◌, ◌↔◌, ◌*◌, nat_lt, IsTrue, slice_index_or, IfOk, IsOkUnless};
ghost use Rattle.st_counts.specs.Counts.{count};
ghost use Rattle.st_registers.specs.Slots.{unwritten, is_value, is_accepted, is_closed, is_safe_view, lets};
ghost use Rattle.st_registers.specs.declared.error.FlatError.TheVariants as flat;

use crate::error::FlatError;
use st_words::{Same, Seq, Value};
use std::alloc::Global;

/// What a member's register of one view and number holds.
#[derive(Clone, Copy, Debug, PartialEq, Eq)]
pub enum Register {
    Unwritten,
    /// The value that is proposed there.
    Accepted,
    Closed,
}

/// One view and number: the value that is proposed there, and the register of each member.
#[derive(Drop)]
pub struct Slot {
    pub view: u32,
    pub number: u32,
    pub proposed: Option<Value>,
    pub registers: Seq<Register>,
}

impl Register {
    pub fn is_unwritten(self) -> bool
        ensures { IsTrue result ↔ (self ≡ Register.Unwritten) }
    {
        matches!(self, Register::Unwritten)
    }

    pub fn is_accepted(self) -> bool
        ensures { result ≡ is_accepted self }
    {
        matches!(self, Register::Accepted)
    }

    pub fn is_closed(self) -> bool
        ensures { result ≡ is_closed self }
    {
        matches!(self, Register::Closed)
    }
}

/// Whether so many of the members are more than half of them.
pub fn is_majority(count: usize, members: u32) -> bool
    ensures { result ≡ nat_lt members (2 * count) }
{
    members as usize / 2 < count
}

impl Slot {
    /// The slot where nothing was said: no value, and the members' registers unwritten.
    pub fn new(alloc: Global, members: u32, view: u32, number: u32) -> Result<Slot, FlatError>
        ensures ok { IfOk result (λ slot. slot ≡ unwritten members view number) }
        ensures memory { IsOkUnless result flat.OutOfMemory }
    {
        let registers = vec![in alloc; Register::Unwritten; members as usize]?;
        Ok(Slot {
            view,
            number,
            proposed: None,
            registers: Seq::from_vec(registers),
        })
    }

    /// The member's register.
    pub fn register(&self, member: u32) -> Register
        ensures { result ≡ slice_index_or self.now.registers member Register.Unwritten }
    {
        let registers = self.registers.as_slice();
        registers
            .get(member as usize)
            .copied()
            .unwrap_or(Register::Unwritten)
    }

    /// How many members have accepted.
    #[tactic(auto, using(st_counts::proofs::CountLaws::count_is_count_by))]
    pub fn accepted_count(&self) -> usize
        ensures { result ≡ count is_accepted self.now.registers }
    {
        self.registers
            .as_slice()
            .iter()
            .filter(|register| register.is_accepted())
            .count()
    }

    /// How many members have closed.
    #[tactic(auto, using(st_counts::proofs::CountLaws::count_is_count_by))]
    pub fn closed_count(&self) -> usize
        ensures { result ≡ count is_closed self.now.registers }
    {
        self.registers
            .as_slice()
            .iter()
            .filter(|register| register.is_closed())
            .count()
    }

    /// Whether the value is proposed here.
    pub fn has_proposed(&self, value: &Value) -> bool
        ensures { result ≡ is_value value.now self.now.proposed }
    {
        match &self.proposed {
            None => false,
            Some(proposed) => proposed.same(value),
        }
    }

    /// Whether the value is proposed here, or a majority of the registers closed.
    pub fn lets(&self, members: u32, value: &Value) -> bool
        ensures { result ≡ lets members value.now self.now }
    {
        self.has_proposed(value) || is_majority(self.closed_count(), members)
    }

    /// Whether the slot is of a view below `view` at the number, and lets higher views have the value.
    pub fn is_safe_view(&self, view: u32, number: u32, members: u32, value: &Value) -> bool
        ensures { result ≡ is_safe_view view number members value.now self.now }
    {
        self.view < view && self.number == number && self.lets(members, value)
    }
}
