//! A value in memory of its own, which moves as one word.
ghost use Rattle.std.specs.Prelude.{◌≡◌, IfOk};

use std::alloc::{AllocError, Global};
use std::marker::Model;

/// A value in memory of its own, so that what holds it is small where it is moved. Contracts see the value.
pub struct Apart<T> {
    /// The value, in its memory.
    pub value: Box<T>,
}

impl<T> Model for Apart<T> {
    ghost Value = { T };

    ghost view = { λ a. a.value.value };
}

impl<T: Drop> Drop for Apart<T> {
    fn drop(self) {
        let Apart { value } = self;
        drop(value);
    }
}

impl<T: Drop> Apart<T> {
    /// The value, in new memory.
    ///
    /// # Errors
    ///
    /// `AllocError` where no memory is found.
    pub fn new(alloc: Global, value: T) -> Result<Apart<T>, AllocError>
        ensures { IfOk result (λ a. a ≡ value) }
    {
        match Box::new(alloc, value) {
            Ok(value) => Ok(Apart { value }),
            Err(_) => Err(AllocError),
        }
    }

    /// The value, whose memory is given back.
    pub fn into_inner(self) -> T
        ensures { result ≡ self }
    {
        let Apart { value } = self;
        Box::into_inner(value)
    }
}
