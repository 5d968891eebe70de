//! The views of all bricks, kept on the heap.
ghost use Rattle.std.specs.Prelude.{◌≡◌, IfOk};

use crate::entry::View;
use crate::try_copy::TryCopy;
use afr_base::NoMemory;
use std::alloc::Global;
use std::marker::Model;

/// What each of five bricks shows of an object. It is on the heap, so that the few replies that show views leave all others
/// small. Contracts see the plain list.
#[derive(Debug, Drop)]
pub struct Views {
    alloc: Global,
    views: Box<[Option<View>; 5]>,
}

impl Model for Views {
    ghost use Rattle.std.specs.Prelude.{List as PlainList, Option};
    ghost use Rattle.afr_object.specs.declared.entry.View.{View};

    ghost Value = { PlainList (Option View) };

    ghost view = { λ v. v.views.value };
}

impl Views {
    pub fn new(alloc: Global, views: &[Option<View>; 5]) -> Result<Views, NoMemory>
        ensures ok { IfOk result (λ kept. kept ≡ views.now) }
    {
        let views = Box::new(alloc, *views)?;
        Ok(Views { alloc, views })
    }

    pub fn as_array(&self) -> &[Option<View>; 5]
        ensures { result.now ≡ self.now }
    {
        &self.views
    }
}

impl TryCopy for Views {
    fn copy(&self) -> Result<Views, NoMemory> {
        Views::new(self.alloc, &self.views)
    }
}
