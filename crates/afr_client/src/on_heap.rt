//! A value on the heap.
ghost use Rattle.std.specs.Prelude.{◌≡◌, IfOk};

use afr_base::NoMemory;
use std::alloc::Global;
use std::marker::Model;

/// A value on the heap, so that what holds it is small and moves cheaply. Contracts see the value.
#[derive(Drop)]
pub struct OnHeap<T> {
    pub(crate) value: Box<T>,
}

impl<T> Model for OnHeap<T> {
    ghost Value = { T };

    ghost view = { λ h. h.value.value };
}

impl<T: Drop> OnHeap<T> {
    pub(crate) fn new(alloc: Global, value: T) -> Result<OnHeap<T>, NoMemory>
        ensures ok { IfOk result (λ kept. kept ≡ value) }
    {
        match Box::new(alloc, value) {
            Ok(value) => Ok(OnHeap { value }),
            Err(_) => Err(NoMemory),
        }
    }
}
