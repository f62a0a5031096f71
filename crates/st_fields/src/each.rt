//! Readers and writers of lists, once for all kinds of elements.

ghost use Rattle.std.specs.Prelude.{◌≡◌, List, ℕ, ◌<◌, ◌≤◌, ◌++◌, ◌^◌, length, All, OnOk};
ghost use Rattle.std.specs.List.{flat_map};
ghost use Rattle.st_fields.specs.Spelling.{counted};
ghost use Rattle.st_fields.specs.Reading.{Read, Gives, list_at, counted_at};

use crate::error::FieldError;
use crate::reading::read_byte_in;
use crate::seq::Seq;
use crate::writing::put_byte;
use std::alloc::{AllocError, Global};

/// Reads the elements of a list. What an element may be can hang on those before it: that is the
/// reader's state.
pub trait ReadsEach<T>: Drop {
    ghost reads: { Self → List ℕ → Read T };

    ghost after: { Self → T → Self };

    /// The next element.
    fn read<'a>(&self, alloc: Global, bytes: &'a [u8]) -> Result<(T, &'a [u8]), FieldError>
        ensures { Gives (λ x. (x.0, x.1.now)) result (reads self.now bytes.now) };

    /// The reader of what stands after the element.
    fn go_past(self, element: &T) -> Self
        ensures { result ≡ after self element.now };
}

/// `count` elements, one after another.
pub fn read_list<T: Drop, R: ReadsEach<T>>(
    alloc: Global,
    count: usize,
    reader: R,
    bytes: &[u8],
) -> Result<(Seq<T>, &[u8]), FieldError>
    ensures { Gives (λ x. (x.0, x.1.now)) result (list_at R.reads R.after count reader bytes.now) }
{
    let mut elements = Vec::new(alloc);
    let mut reader = reader;
    let mut rest = bytes;
    for _ in 0..count {
        let (element, after) = reader.read(alloc, rest)?;
        reader = reader.go_past(&element);
        elements.push(element)?;
        rest = after;
    }
    Ok((Seq::from_vec(elements), rest))
}

/// From `least` to `most` elements, behind their number of one byte.
#[tactic(auto, unfolding(crate::specs::Reading::counted_at))]
pub fn read_counted<T: Drop, R: ReadsEach<T>>(
    alloc: Global,
    least: u8,
    most: u8,
    reader: R,
    bytes: &[u8],
) -> Result<(Seq<T>, &[u8]), FieldError>
    ensures gives { Gives (λ x. (x.0, x.1.now)) result (counted_at least most R.reads R.after reader bytes.now) }
{
    let (count, rest) = read_byte_in(bytes, u16::from(least), most)?;
    read_list(alloc, usize::from(count), reader, rest)
}

/// A value that has a spelling, where it keeps the ranges of its fields.
pub trait Spelled {
    ghost spelling: { Self → List ℕ };

    ghost keeps: { Self → Type 0 };

    /// Puts its spelling last.
    fn put(&self, out: &mut Vec<u8>) -> Result<(), AllocError>
        requires { keeps self.now }
        ensures { OnOk result (out.new.items ≡ out.old.items ++ spelling self.now) };
}

/// The elements, one after another.
pub fn put_list<T: Spelled>(out: &mut Vec<u8>, elements: &[T]) -> Result<(), AllocError>
    requires { All T.keeps elements.now }
    ensures { OnOk result (out.new.items ≡ out.old.items ++ flat_map T.spelling elements.now) }
{
    for element in elements {
        element.put(out)?;
    }
    Ok(())
}

/// The elements behind their number of one byte.
#[tactic(auto, unfolding(crate::specs::Spelling::counted))]
pub fn put_counted<T: Spelled>(out: &mut Vec<u8>, elements: &[T]) -> Result<(), AllocError>
    requires count { length elements.now < 2 ^ 8 }
    requires each { All T.keeps elements.now }
    ensures { OnOk result (out.new.items ≡ out.old.items ++ counted T.spelling elements.now) }
{
    put_byte(out, elements.len() as u8)?;
    put_list(out, elements)?;
    Ok(())
}
