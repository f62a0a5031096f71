ghost use Rattle.std.specs.Prelude.{◌≡◌, [], IfOk, OnOk, OnErr, IsOkUnless, IsTrue, ◌↔◌, Some, None};
ghost use Rattle.st_fields.specs.declared.error.WordsError.TheVariants as words;
ghost use Rattle.st_words.specs.Ranges.{KeepsStatement, FitsStatement};
ghost use Rattle.st_protocol.specs.World.{has_made, has_handed};

use crate::key::key_of;
use st_fields::{Copied, Same, Seq, WordsError};
use st_message::{MadeSeal, MadeSeals};
use st_words::{Statement, Who};
use std::alloc::Global;
use std::collections::BTreeMap;
use std::marker::Model;

/// The seals that correct parties handed out, each once, where it was first handed out.
#[derive(Drop)]
pub struct Made {
    seals: MadeSeals,
    // Per party and statement, the leaf of the first seal.
    leaves: BTreeMap<Vec<u8>, u32>,
}

impl Model for Made {
    ghost use Rattle.std.specs.Prelude.{List};
    ghost use Rattle.st_message.specs.declared.made.MadeSeal.{MadeSeal};
    ghost use Rattle.st_made.specs.Keys.{KeepsFirst};

    ghost Value = { List MadeSeal };

    ghost view = { λ m. m.seals };

    ghost invariant = { λ m. KeepsFirst (λ k. k.items) m.leaves m.seals };
}

impl Made {
    ghost use Rattle.st_made.specs.Keys.{first_leaf, key_spelling, with_seal};

    /// No seal was handed out. Takes no memory.
    pub fn new(alloc: Global) -> Made
        ensures { result ≡ [] }
    {
        Made {
            seals: Seq::new(alloc),
            leaves: BTreeMap::new(alloc),
        }
    }

    /// The list.
    pub fn as_slice(&self) -> &[MadeSeal]
        ensures { result.now ≡ self.now }
    {
        self.seals.as_slice()
    }

    /// The party hands out a seal with this leaf over the statement. Where memory is refused nothing is noted.
    pub fn hand(
        &mut self,
        alloc: Global,
        who: Who,
        leaf: u32,
        statement: &Statement,
    ) -> Result<(), WordsError>
        requires { KeepsStatement statement.now }
        ensures made { OnOk result (self.new ≡ with_seal self.old who leaf statement.now) }
        ensures err { OnErr result (self.new ≡ self.old) }
        ensures memory { IsOkUnless result words.OutOfMemory }
    {
        let key = key_of(alloc, who, statement)?;
        match self.leaves.get(key.as_slice()) {
            Some(first) => {
                let first = *first;
                self.hand_again(alloc, who, leaf, statement, first)
            }
            None => self.hand_first(alloc, key, who, leaf, statement),
        }
    }

    // The party's first seal over the statement, of which this is the key.
    fn hand_first(
        &mut self,
        alloc: Global,
        key: Vec<u8>,
        who: Who,
        leaf: u32,
        statement: &Statement,
    ) -> Result<(), WordsError>
        requires keeps { KeepsStatement statement.now }
        requires fits { FitsStatement statement.now }
        requires key { key.items ≡ key_spelling who statement.now }
        requires first { first_leaf self.old who statement.now ≡ None }
        ensures made { OnOk result (self.new ≡ with_seal self.old who leaf statement.now) }
        ensures err { OnErr result (self.new ≡ self.old) }
        ensures memory { IsOkUnless result words.OutOfMemory }
    {
        let statement = statement.copy(alloc)?;
        self.seals.push(MadeSeal {
            who,
            leaf,
            statement,
        })?;
        let Ok(_) = self.leaves.insert(key, leaf) else {
            drop(self.seals.pop());
            return Err(WordsError::OutOfMemory);
        };
        Ok(())
    }

    // A further seal of the party's over the statement, of which the first had this leaf. Most are the first again.
    fn hand_again(
        &mut self,
        alloc: Global,
        who: Who,
        leaf: u32,
        statement: &Statement,
        first: u32,
    ) -> Result<(), WordsError>
        requires first { first_leaf self.old who statement.now ≡ Some first }
        ensures made { OnOk result (self.new ≡ with_seal self.old who leaf statement.now) }
        ensures err { OnErr result (self.new ≡ self.old) }
        ensures memory { IsOkUnless result words.OutOfMemory }
    {
        if leaf == first {
            return Ok(());
        }
        if self.is_handed(who, leaf, statement) {
            return Ok(());
        }
        let statement = statement.copy(alloc)?;
        self.seals.push(MadeSeal {
            who,
            leaf,
            statement,
        })?;
        Ok(())
    }

    // Whether the party handed out this seal.
    fn is_handed(&self, who: Who, leaf: u32, statement: &Statement) -> bool
        ensures { result ≡ has_handed self.now who leaf statement.now }
    {
        for seal in self.seals.as_slice() {
            if is_seal(seal, who, leaf, statement) {
                return true;
            }
        }
        false
    }

    /// Whether the party handed out a seal over the statement.
    pub fn has(&self, alloc: Global, who: Who, statement: &Statement) -> Result<bool, WordsError>
        requires { KeepsStatement statement.now }
        ensures has { IfOk result (λ has. has ≡ has_made self.now who statement.now) }
        ensures memory { IsOkUnless result words.OutOfMemory }
    {
        let sought = key_of(alloc, who, statement)?;
        Ok(self.leaves.contains_key(sought.as_slice()))
    }
}

// Whether this is the seal of the party with this leaf over the statement.
fn is_seal(seal: &MadeSeal, who: Who, leaf: u32, statement: &Statement) -> bool
    ensures { IsTrue result ↔ ((seal.now.who ≡ who) × (seal.now.leaf ≡ leaf) × (seal.now.statement ≡ statement.now)) }
{
    seal.who == who && seal.leaf == leaf && seal.statement.same(statement)
}
