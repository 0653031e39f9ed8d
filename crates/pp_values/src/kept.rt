ghost use Rattle.std.specs.Prelude.{◌≡◌};

use std::marker::Model;

/// A holder of a value with many cases, for a local that lives across a `?`. Its contracts read as those of the value.
///
/// It allocates nothing. It is dropped by a call, where a bare value's drop would be taken apart, and proved, anew at
/// each exit of each function that holds one.
pub struct Kept<T: Drop> {
    value: T,
}

impl<T: Drop> Drop for Kept<T> {
    fn drop(self) {
        let Kept { value: _value } = self;
    }
}

impl<T: Drop> Model for Kept<T> {
    ghost Value = { T };

    ghost coded = { T.code };

    ghost view = { λ k. k.value };
}

impl<T: Drop> Kept<T> {
    pub fn new(value: T) -> Kept<T>
        ensures { result ≡ value }
    {
        Kept { value }
    }

    pub fn as_ref(&self) -> &T
        ensures { result.now ≡ self.now }
    {
        &self.value
    }

    pub fn into_inner(self) -> T
        ensures { result ≡ self }
    {
        let Kept { value } = self;
        value
    }
}
