ghost use Rattle.std.specs.Prelude.{◌≡◌, [], ◌∷◌, ◌++◌, ◌<◌, length, slice_get, slice_set, ◌↔◌, IsTrue, IfOk, IsOkUnless, MatchOption, OnOk, OnErr, OnSome};
ghost use Rattle.std.specs.Option.{option_copied};
ghost use Rattle.st_fields.specs.declared.error.WordsError.TheVariants as words;

use crate::error::WordsError;
use std::alloc::Global;
use std::marker::Model;

/// A `Vec` that contracts see as the list of its elements, so that equal lists are equal values.
#[derive(Debug, Drop)]
pub struct Seq<T> {
    elements: Vec<T>,
}

/// A list of bytes.
pub type Bytes = Seq<u8>;

impl<T> Model for Seq<T> {
    ghost use Rattle.std.specs.Prelude.{List};
    ghost use Rattle.std.specs.Coded.{coded_list};

    ghost Value = { List T };

    ghost coded = { coded_list T.code };

    ghost view = { λ s. s.elements.items };
}

impl<T> Seq<T> {
    /// The empty list. Takes no memory.
    pub fn new(alloc: Global) -> Seq<T>
        ensures { result ≡ [] }
    {
        Seq {
            elements: Vec::new(alloc),
        }
    }

    /// The list of the elements of a `Vec`. Takes no memory.
    pub fn from_vec(elements: Vec<T>) -> Seq<T>
        ensures { result ≡ elements.items }
    {
        Seq { elements }
    }

    /// The elements as a `Vec`. Takes no memory.
    pub fn into_vec(self) -> Vec<T>
        ensures { result.items ≡ self }
    {
        let Seq { elements } = self;
        elements
    }

    /// The elements, in order.
    pub fn as_slice(&self) -> &[T]
        ensures { result.now ≡ self.now }
    {
        self.elements.as_slice()
    }

    /// How many elements there are.
    pub fn len(&self) -> usize
        ensures { result ≡ length self.now }
    {
        self.elements.len()
    }

    /// Whether there is no element.
    pub fn is_empty(&self) -> bool
        ensures { IsTrue result ↔ (self.now ≡ []) }
    {
        self.elements.is_empty()
    }

    /// Element `k`, from 0; None exactly where `k` is at least the length.
    pub fn get(&self, k: usize) -> Option<&T>
        ensures value { option_copied result ≡ slice_get self.now k }
        ensures within { OnSome result (k < length self.now) }
    {
        self.elements.get(k)
    }

    /// Takes the last element off.
    pub fn pop(&mut self) -> Option<T>
        ensures { MatchOption result ((self.old ≡ []) × (self.new ≡ [])) (λ last. self.old ≡ self.new ++ last ∷ []) }
    {
        self.elements.pop()
    }
}

impl<T: Drop> Seq<T> {
    /// Puts `item` last. Where memory is refused the list is as before.
    pub fn push(&mut self, item: T) -> Result<(), WordsError>
        ensures ok { OnOk result (self.new ≡ self.old ++ item ∷ []) }
        ensures err { OnErr result (self.new ≡ self.old) }
        ensures memory { IsOkUnless result words.OutOfMemory }
    {
        self.elements.push(item)?;
        Ok(())
    }

    /// Puts the elements of `more` last, in order. Where memory is refused the list is as before.
    pub fn append(&mut self, more: Seq<T>) -> Result<(), WordsError>
        ensures ok { OnOk result (self.new ≡ self.old ++ more) }
        ensures err { OnErr result (self.new ≡ self.old) }
        ensures memory { IsOkUnless result words.OutOfMemory }
    {
        let Seq { mut elements } = more;
        self.elements.append(&mut elements)?;
        Ok(())
    }

    /// Puts `item` in the place of element `at`.
    pub fn set(&mut self, at: usize, item: T)
        requires { at < length self.old }
        ensures { self.new ≡ slice_set self.old at item }
    {
        self.elements[at] = item;
    }
}

impl<T: Copy> Seq<T> {
    /// The list of the elements of a slice.
    pub fn from_slice(alloc: Global, elements: &[T]) -> Result<Seq<T>, WordsError>
        ensures equal { IfOk result (λ seq. seq ≡ elements.now) }
        ensures memory { IsOkUnless result words.OutOfMemory }
    {
        let elements = Vec::from_slice(alloc, elements)?;
        Ok(Seq { elements })
    }
}
