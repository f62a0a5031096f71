ghost use Rattle.std.specs.Prelude.{◌≡◌, IfOk, IsOkUnless};
ghost use Rattle.st_fields.specs.declared.error.WordsError.TheVariants as words;

use crate::copied::Copied;
use crate::error::WordsError;
use std::alloc::Global;
use std::marker::Model;
use std::rc::Rc;

/// A value that is never written, behind a counted pointer, which contracts see as the value. A copy
/// shares it, so it costs the same whatever the value's size is.
#[derive(Drop)]
pub struct Shared<T> {
    inner: Rc<T>,
}

impl<T> Model for Shared<T> {
    ghost Value = { T };

    ghost coded = { T.code };

    ghost view = { λ s. s.inner.value };
}

impl<T> Shared<T> {
    /// The value.
    pub fn get(&self) -> &T
        ensures { result.now ≡ self.now }
    {
        self.inner.as_ref()
    }
}

impl<T: Drop> Shared<T> {
    /// Takes the value to share it.
    pub fn new(alloc: Global, value: T) -> Result<Shared<T>, WordsError>
        ensures equal { IfOk result (λ shared. shared ≡ value) }
        ensures memory { IsOkUnless result words.OutOfMemory }
    {
        let inner = Rc::new(alloc, value)?;
        Ok(Shared { inner })
    }
}

impl<T: Drop> Copied for Shared<T> {
    fn copy(&self, _alloc: Global) -> Result<Shared<T>, WordsError> {
        let inner = self.inner.clone()?;
        Ok(Shared { inner })
    }
}
