//! A box as a raw pointer.
ghost use Rattle.std.specs.Prelude.{◌≡◌};

use std::alloc::Global;
use std::marker::Model;

/// The pointer of a box, with the ownership of everything that the box owned.
pub struct Block<T> {
    pub at: *mut T,
    pub ghost value: { T },
}

impl<T> Model for Block<T> {
    ghost use Rattle.saga_c.specs.Blocks.{block_owns};

    ghost also_owns = { λ b. block_owns T.row b.at b.value };
}

impl<T> Block<T> {
    /// Converts a box to its pointer.
    pub fn of(value: Box<T>) -> Block<T>
    where
        T: Drop,
        ensures { result.value ≡ value.value }
    {
        Block {
            at: Box::into_raw(value),
        }
    }

    /// Converts the pointer back to the box.
    pub fn into_box(self, alloc: Global) -> Box<T>
        ensures { result.value ≡ self.value }
    {
        let Block { at } = self;
        unsafe { Box::from_raw(alloc, at) }
    }
}
