ghost use Rattle.std.specs.Prelude.{◌≡◌, ℕ, ◌+◌, ◌≤◌, true, nat_lt, Some, [], ◌∷◌, ◌++◌, length, take, drop, map, slice_get, IfOk, OnOk, OnErr, IsOkUnless, MatchOption, IsTrue};
ghost use Rattle.std.specs.List.Sorted.{IsNonDecreasingBy};
ghost use Rattle.st_fields.specs.declared.error.WordsError.TheVariants as words;
ghost use Rattle.st_protocol.specs.World.{same_dest};
ghost use Rattle.st_protocol.specs.Schedule.{is_pair, without, has_pair};
ghost use Rattle.st_waiting.specs.Destinations.{starts_of};
ghost use Rattle.st_waiting.specs.Passing.{passing};
ghost use Rattle.st_waiting.specs.Places.{pair_of, pair_in, waits, waiting_from, cleared, NoneOf, IsKept};

use crate::marks::{Mark, mark_of, new_marks, set_mark};
use crate::slot::{Pair, Slot};
use st_fields::{Seq, WordsError};
use st_schedule::Dest;
use std::alloc::Global;

/// The undelivered pairs, in the order in which they were sent.
#[derive(Drop)]
pub struct Waiting {
    /// All pairs that were put in, in order.
    slots: Seq<Slot>,
    /// No pair before this place waits.
    head: usize,
    /// How many pairs wait.
    total: u32,
    /// What is noted of each destination.
    marks: Seq<Mark>,
    /// The number of the last message that was put in.
    newest: u32,
    ghost kept: { IsKept slots head total marks newest },
}

#[tactic(auto, unfolding(crate::specs::Undelivered::pairs_in))]
impl Waiting {
    ghost use Rattle.st_waiting.specs.Undelivered.{pairs_in, newest_in};

    /// Nothing waits.
    #[tactic(auto, using(crate::proofs::KeepLaws::none_waits, crate::proofs::KeepLaws::none_kept), unfolding(crate::specs::Undelivered::pairs_in))]
    pub fn new(alloc: Global) -> Result<Waiting, WordsError>
        ensures none { IfOk result (λ waiting. pairs_in waiting ≡ []) }
        ensures newest { IfOk result (λ waiting. newest_in waiting ≡ 0) }
        ensures memory { IsOkUnless result words.OutOfMemory }
    {
        let marks = new_marks(alloc)?;
        Ok(Waiting {
            slots: Seq::new(alloc),
            head: 0,
            total: 0,
            marks,
            newest: 0,
        })
    }

    /// How many pairs wait.
    pub fn len(&self) -> u32
        ensures { result ≡ length (pairs_in self.now) }
    {
        self.total
    }

    /// The number of the message that was put in last, 0 at first.
    pub fn newest(&self) -> u32
        ensures { result ≡ newest_in self.now }
    {
        self.newest
    }

    /// Puts a pair last, whose message is the newest so far or a newer one. Where memory is refused, or
    /// 2^32-1 pairs were put in before, all is as it was.
    pub fn push(&mut self, message: u32, to: Dest) -> Result<(), WordsError>
        requires { newest_in self.old ≤ message }
        ensures ok { OnOk result (pairs_in self.new ≡ pairs_in self.old ++ record { message = message; to = to } ∷ []) }
        ensures newest { OnOk result (newest_in self.new ≡ message) }
        ensures err { OnErr result (self.new ≡ self.old) }
        ensures memory { IsOkUnless result words.OutOfMemory }
    {
        let places = self.slots.len();
        if places >= u32::MAX as usize {
            return Err(WordsError::OutOfMemory);
        }
        self.slots.push(Slot {
            message,
            to,
            gone: false,
        })?;
        let mark = mark_of(&self.marks, to);
        let counted = Mark {
            start: mark.start,
            count: mark.count + 1,
        };
        set_mark(&mut self.marks, to, counted);
        self.total += 1;
        self.newest = message;
        Ok(())
    }

    /// Takes the oldest pair that waits, if one does. Over many calls each takes constant time.
    pub fn pop(&mut self) -> Option<Pair>
        ensures taken { MatchOption result ((pairs_in self.old ≡ []) × (pairs_in self.new ≡ [])) (λ pair. pairs_in self.old ≡ pair_of pair ∷ pairs_in self.new) }
        ensures newest { newest_in self.new ≡ newest_in self.old }
    {
        let place = self.oldest();
        self.head = place;
        match self.slots.get(place) {
            Some(slot) => {
                let pair = Pair {
                    message: slot.message,
                    to: slot.to,
                };
                let mark = mark_of(&self.marks, pair.to);
                let counted = Mark {
                    start: mark.start,
                    count: mark.count - 1,
                };
                set_mark(&mut self.marks, pair.to, counted);
                self.head = place + 1;
                self.total -= 1;
                Some(pair)
            }
            None => None,
        }
    }

    /// How many pairs of this message to this destination waited: none waits any more. Takes the time of a
    /// message's destinations.
    pub fn remove(&mut self, message: u32, to: Dest) -> u32
        ensures pairs { pairs_in self.new ≡ without (is_pair message to) (pairs_in self.old) }
        ensures count { result + length (pairs_in self.new) ≡ length (pairs_in self.old) }
        ensures had { nat_lt 0 result ≡ has_pair (is_pair message to) (pairs_in self.old) }
        ensures newest { newest_in self.new ≡ newest_in self.old }
    {
        let count = self.count_of(message, to);
        clear(&mut self.slots, message, to);
        let mark = mark_of(&self.marks, to);
        let counted = Mark {
            start: mark.start,
            count: mark.count - count,
        };
        set_mark(&mut self.marks, to, counted);
        self.total -= count;
        count
    }

    /// Whether a pair of this message to this destination waits. Takes the time of a message's
    /// destinations.
    pub fn holds(&self, message: u32, to: Dest) -> bool
        ensures { result ≡ has_pair (is_pair message to) (pairs_in self.now) }
    {
        self.count_of(message, to) > 0
    }

    /// How many pairs to this destination waited: none waits any more. Takes constant time.
    pub fn lose(&mut self, to: Dest) -> u32
        ensures pairs { pairs_in self.new ≡ without (λ p. same_dest p.to to) (pairs_in self.old) }
        ensures count { result + length (pairs_in self.new) ≡ length (pairs_in self.old) }
        ensures newest { newest_in self.new ≡ newest_in self.old }
    {
        let count = mark_of(&self.marks, to).count;
        let lost = Mark {
            start: self.slots.len() as u32,
            count: 0,
        };
        set_mark(&mut self.marks, to, lost);
        self.total -= count;
        count
    }

    // The place of the oldest pair that waits, or the number of places where none does.
    #[tactic(auto, using(crate::proofs::KeepLaws::next_place, crate::proofs::KeepLaws::past_places), unfolding(crate::specs::Undelivered::pairs_in))]
    fn oldest(&self) -> usize
        ensures within { result ≤ length self.now.slots }
        ensures same { waiting_from self.now.marks result self.now.slots ≡ pairs_in self.now }
        ensures waits { (s : Slot) → slice_get self.now.slots result ≡ Some s → waits (starts_of self.now.marks) result s ≡ true }
    {
        for place in self.head..self.slots.len() {
            if let Some(slot) = self.slots.get(place) {
                if self.waits(place, *slot) {
                    return place;
                }
            }
        }
        self.slots.len()
    }

    // How many pairs of a message to a destination wait.
    fn count_of(&self, message: u32, to: Dest) -> u32
        ensures { result ≡ passing (is_pair message to) (pairs_in self.now) }
    {
        let (low, high) = bounds(self.slots.as_slice(), message);
        let first = low.max(self.head);
        let last = high.max(self.head);
        let mut count = 0;
        for place in first..last {
            if let Some(slot) = self.slots.get(place) {
                if is_for(*slot, message, to) && self.waits(place, *slot) {
                    count += 1;
                }
            }
        }
        count
    }

    // Whether the pair in a place waits.
    fn waits(&self, place: usize, slot: Slot) -> bool
        ensures { result ≡ waits (starts_of self.now.marks) place slot }
    {
        !slot.gone && mark_of(&self.marks, slot.to).start as usize <= place
    }
}

// Whether a place is of this message and to this destination.
fn is_for(slot: Slot, message: u32, to: Dest) -> bool
    ensures { result ≡ is_pair message to (pair_in slot) }
{
    slot.message == message && slot.to == to
}

// A message's places: from the first up to before the second.
fn bounds(slots: &[Slot], message: u32) -> (usize, usize)
    requires { IsNonDecreasingBy (λ (s : Slot). s.message) slots.now }
    ensures order { result.0 ≤ result.1 }
    ensures within { result.1 ≤ length slots.now }
    ensures before { NoneOf message (take result.0 slots.now) }
    ensures after { NoneOf message (drop result.1 slots.now) }
{
    let low = slots.partition_point(|slot| slot.message < message);
    let rest = &slots[low..];
    let high = rest.partition_point(|slot| slot.message <= message);
    (low, low + high)
}

// Clears a message's places to a destination.
fn clear(slots: &mut Seq<Slot>, message: u32, to: Dest)
    requires { IsNonDecreasingBy (λ (s : Slot). s.message) slots.old }
    ensures { slots.new ≡ map (cleared message to) slots.old }
{
    let (low, high) = bounds(slots.as_slice(), message);
    for place in low..high {
        if let Some(slot) = slots.get(place) {
            let slot = *slot;
            if is_for(slot, message, to) {
                let gone = Slot {
                    message: slot.message,
                    to: slot.to,
                    gone: true,
                };
                slots.set(place, gone);
            }
        }
    }
}
