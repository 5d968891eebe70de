//! What holds of each move and its note, for all registers at once: laws for those who prove over many notes.
ghost use Rattle.std.specs.Prelude.{◌≡◌, length};
ghost use Rattle.afr_discipline.specs.Laws.{FreshStands, NotesStand, ShapesKept, TestsDecide};
ghost use Rattle.afr_discipline.specs.Stands.{HasFive};

use crate::register::Register;
use afr_object::View;

/// The test of a move is true exactly where the discipline allows the move.
pub fn each_move_is_decided()
    ensures { TestsDecide }
{}

/// A note leaves a register that stands for one line more, of the same shape.
pub fn each_note_stands()
    ensures stands { NotesStand }
    ensures shapes { ShapesKept }
    ensures fresh { FreshStands }
{}

fn five_views(views: &[Option<View>; 5])
    ensures { length views.now ≡ 5 }
{}

fn five_reads(reads: &[Option<u32>; 5])
    ensures { length reads.now ≡ 5 }
{}

/// Each list of a register has five places, by its type.
pub fn has_five(register: &Register)
    ensures { HasFive register.now }
{
    five_views(&register.looked.views);
    five_views(&register.seen.views);
    five_reads(&register.reads);
}
