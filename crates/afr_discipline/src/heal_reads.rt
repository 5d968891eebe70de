//! The repairs of a heal, if one copy is its source.
ghost use Rattle.std.specs.Prelude.{◌≡◌, ◌<◌, ◌≤◌, slice_index_or, None};
ghost use Rattle.afr_model_moves.specs.Rules.{some_read};
ghost use Rattle.afr_model_moves.specs.Register.{is_opening};
ghost use Rattle.afr_model_moves.specs.Steps.{may_heal, may_mend, same_read, same_reads};
ghost use Rattle.afr_model_moves.specs.Keeps.{keeps_in};
ghost use Rattle.afr_discipline.specs.Stands.{heal_part_of, reads_of, seen_as};
ghost use Rattle.afr_discipline.specs.Five.{has_read};

use crate::heal_sets::is_turn;
use crate::heals::{has_raised, is_onward, len_at};
use crate::register::{HealPart, Register, Step};
use afr_base::{BrickId, Gfid, HEAL_BLOCK, Kind};
use afr_lines::Request;
use afr_object::Repair;

fn is_same_read(one: Option<u32>, other: Option<u32>) -> bool
    ensures { result ≡ same_read one other }
{
    match (one, other) {
        (None, None) => true,
        (Some(one), Some(other)) => one == other,
        _ => false,
    }
}

/// The position that a list of reads has for a brick.
fn read_at(reads: &[Option<u32>; 5], x: BrickId) -> Option<u32>
    requires { x.0 < 5 }
    ensures { result ≡ slice_index_or reads.now x.0 None }
{
    reads[x.0 as usize]
}

fn is_read_at(mine: &[Option<u32>; 5], reads: &[Option<u32>; 5], x: BrickId) -> bool
    requires { x.0 < 5 }
    ensures { result ≡ same_read (reads_of mine.now x.0) (slice_index_or reads.now x.0 None) }
{
    is_same_read(read_at(mine, x), read_at(reads, x))
}

/// Whether two lists of reads are the same.
fn are_same_reads(mine: &[Option<u32>; 5], reads: &[Option<u32>; 5]) -> bool
    ensures { result ≡ same_reads (reads_of mine.now) 0 reads.now }
{
    is_read_at(mine, reads, BrickId(0))
        && is_read_at(mine, reads, BrickId(1))
        && is_read_at(mine, reads, BrickId(2))
        && is_read_at(mine, reads, BrickId(3))
        && is_read_at(mine, reads, BrickId(4))
}

fn has_read_at(reads: &[Option<u32>; 5], x: BrickId) -> bool
    requires { x.0 < 5 }
    ensures { result ≡ has_read (slice_index_or reads.now x.0 None) }
{
    read_at(reads, x).is_some()
}

/// Whether a list of reads has one.
fn has_some_read(reads: &[Option<u32>; 5]) -> bool
    ensures { result ≡ some_read reads.now }
{
    has_read_at(reads, BrickId(0))
        || has_read_at(reads, BrickId(1))
        || has_read_at(reads, BrickId(2))
        || has_read_at(reads, BrickId(3))
        || has_read_at(reads, BrickId(4))
}

pub(crate) fn is_in_opening(part: HealPart) -> bool
    ensures { result ≡ is_opening (heal_part_of part) }
{
    match part {
        HealPart::Opening => true,
        HealPart::Piece | HealPart::Finish => false,
    }
}

fn may_cut(register: &Register, s: BrickId, g: Gfid, len: u32) -> bool
    requires few { register.now.shape.n ≤ 5 }
    requires source { s.0 < 5 }
    ensures { result ≡ may_mend register.now.shape.n (keeps_in register.now.shape) (seen_as register.now) s.0 (Repair.CutTo g len) }
{
    is_onward(register, s, g, Kind::Bytes)
        && is_in_opening(register.part)
        && len == len_at(&register.seen, s)
}

fn may_copy(register: &Register, s: BrickId, g: Gfid, at: u32, span: u32, read: u32) -> bool
    requires few { register.now.shape.n ≤ 5 }
    requires source { s.0 < 5 }
    ensures { result ≡ may_mend register.now.shape.n (keeps_in register.now.shape) (seen_as register.now) s.0 (Repair.Copy g at span read) }
{
    is_onward(register, s, g, Kind::Bytes)
        && !is_in_opening(register.part)
        && at == register.upto
        && span == HEAL_BLOCK
        && is_same_read(read_at(&register.reads, s), Some(read))
}

fn may_put_attrs(register: &Register, s: BrickId, g: Gfid, read: u32) -> bool
    requires few { register.now.shape.n ≤ 5 }
    requires source { s.0 < 5 }
    ensures { result ≡ may_mend register.now.shape.n (keeps_in register.now.shape) (seen_as register.now) s.0 (Repair.PutAttrs g read) }
{
    is_onward(register, s, g, Kind::Attrs) && is_same_read(read_at(&register.reads, s), Some(read))
}

fn may_put_names(register: &Register, s: BrickId, g: Gfid, reads: &[Option<u32>; 5]) -> bool
    requires few { register.now.shape.n ≤ 5 }
    requires source { s.0 < 5 }
    ensures { result ≡ may_mend register.now.shape.n (keeps_in register.now.shape) (seen_as register.now) s.0 (Repair.PutNames g reads.now) }
{
    is_onward(register, s, g, Kind::Names)
        && are_same_reads(&register.reads, reads)
        && has_some_read(reads)
}

/// The repair of this part of the heal.
fn is_repair(register: &Register, s: BrickId, repair: &Repair) -> bool
    requires few { register.now.shape.n ≤ 5 }
    requires source { s.0 < 5 }
    ensures { result ≡ may_mend register.now.shape.n (keeps_in register.now.shape) (seen_as register.now) s.0 repair.now }
{
    match repair {
        Repair::CutTo { gfid, len } => may_cut(register, s, *gfid, *len),
        Repair::Copy {
            gfid,
            at,
            span,
            read,
        } => may_copy(register, s, *gfid, *at, *span, *read),
        Repair::PutAttrs { gfid, read } => may_put_attrs(register, s, *gfid, *read),
        Repair::PutNames { gfid, reads } => may_put_names(register, s, *gfid, reads),
    }
}

/// A heal's next repair.
pub(crate) fn may_repair(register: &Register, s: BrickId, b: BrickId, repair: &Repair) -> bool
    requires few { register.now.shape.n ≤ 5 }
    requires source { s.0 < 5 }
    requires small { b.0 < 5 }
    ensures { result ≡ may_heal register.now.shape.n (keeps_in register.now.shape) (seen_as register.now) s.0 b.0 (Request.Mend repair.now) }
{
    is_repair(register, s, repair)
        && has_raised(register, s)
        && is_turn(register, s, Step::Mends, b)
}
