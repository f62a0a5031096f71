ghost use Rattle.std.specs.Prelude.{◌≡◌, IfOk, IsOkUnless};
ghost use Rattle.st_fields.specs.declared.error.WordsError.TheVariants as words;

use crate::error::WordsError;
use crate::seq::Seq;
use std::alloc::Global;

/// A value of which an equal one can be made, if memory is there.
pub trait Copied: Drop + Sized {
    /// An equal value.
    fn copy(&self, alloc: Global) -> Result<Self, WordsError>
        ensures equal { IfOk result (λ copy. copy ≡ self.now) }
        ensures memory { IsOkUnless result words.OutOfMemory };
}

impl Copied for u8 {
    fn copy(&self, _alloc: Global) -> Result<u8, WordsError> {
        Ok(*self)
    }
}

impl<T: Copied> Copied for Option<T> {
    fn copy(&self, alloc: Global) -> Result<Option<T>, WordsError> {
        match self {
            None => Ok(None),
            Some(value) => Ok(Some(value.copy(alloc)?)),
        }
    }
}

impl<T: Copied> Copied for Seq<T> {
    fn copy(&self, alloc: Global) -> Result<Seq<T>, WordsError> {
        let mut copy = Seq::new(alloc);
        for element in self.as_slice() {
            copy.push(element.copy(alloc)?)?;
        }
        Ok(copy)
    }
}
