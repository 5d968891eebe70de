//! Which copies are good, by what each brick showed.
ghost use Rattle.std.specs.Prelude.{◌<◌, ◌≤◌, length};

use afr_base::{AllMarks, BrickId, BrickSet, Kind, Marks, Shape, What};
use afr_choice::{Looked, Verdict, good, holders, judge};
use afr_object::View;

/// A look at a brick: it doesn't answer, lacks the object, or has these data numbers.
#[derive(Clone, Copy, Debug)]
enum Seen {
    Away,
    Lacks,
    Has([u32; 5]),
}

/// A verdict, where the sources are told brick by brick.
#[derive(Clone, Copy, Debug)]
enum Want {
    Short,
    Bare,
    Split,
    Sources([bool; 5]),
}

const CLEAN: Seen = Seen::Has([0; 5]);

const FIRST: Seen = Seen::Has([1, 0, 0, 0, 0]);

const SECOND: Seen = Seen::Has([0, 2, 0, 0, 0]);

const THIRD: Seen = Seen::Has([0, 0, 3, 0, 0]);

const THIRD_ONCE: Seen = Seen::Has([0, 0, 1, 0, 0]);

const ALONE: Seen = Seen::Has([0, 1, 1, 1, 1]);

const FIFTH: Seen = Seen::Has([1, 0, 0, 0, 1]);

const AWAY: Seen = Seen::Away;

const LACKS: Seen = Seen::Lacks;

const ONE: Want = Want::Sources([true, false, false, false, false]);

const TWO: Want = Want::Sources([true, true, false, false, false]);

const THREE: Want = Want::Sources([true, true, true, false, false]);

const LAST_OF_THREE: Want = Want::Sources([false, false, true, false, false]);

/// Of three bricks: whether the last is an arbiter, the looks, and the verdict over data.
const OF_THREE: [(bool, [Seen; 3], Want); 12] = [
    (false, [CLEAN, CLEAN, CLEAN], THREE),
    (false, [THIRD, THIRD, AWAY], TWO),
    (false, [THIRD, CLEAN, CLEAN], TWO),
    (false, [SECOND, FIRST, CLEAN], LAST_OF_THREE),
    (false, [SECOND, FIRST, LACKS], Want::Split),
    (false, [SECOND, THIRD, FIRST], Want::Split),
    (false, [CLEAN, AWAY, AWAY], Want::Short),
    (false, [LACKS, LACKS, AWAY], Want::Bare),
    (true, [CLEAN, CLEAN, CLEAN], TWO),
    (true, [CLEAN, AWAY, CLEAN], ONE),
    (true, [CLEAN, AWAY, FIRST], Want::Split),
    (true, [LACKS, AWAY, CLEAN], Want::Bare),
];

/// Of five bricks: the looks, and the verdict over data.
const OF_FIVE: [([Seen; 5], Want); 6] = [
    ([CLEAN, CLEAN, AWAY, AWAY, AWAY], Want::Short),
    ([AWAY, AWAY, LACKS, LACKS, LACKS], Want::Bare),
    ([CLEAN, CLEAN, CLEAN, AWAY, AWAY], THREE),
    ([ALONE, CLEAN, CLEAN, CLEAN, CLEAN], ONE),
    ([CLEAN, AWAY, CLEAN, LACKS, FIFTH], LAST_OF_THREE),
    ([ALONE, CLEAN, CLEAN, CLEAN, FIFTH], Want::Split),
];

fn looked(seen: &[Seen]) -> Looked
    requires { length seen.now ≤ 5 }
{
    let mut looked = Looked::none();
    for b in 0..seen.len() {
        note(&mut looked, BrickId(b as u8), seen[b]);
    }
    looked
}

fn note(looked: &mut Looked, b: BrickId, seen: Seen)
    requires { b.0 < 5 }
{
    match seen {
        Seen::Away => looked.lose(b),
        Seen::Lacks => looked.note(b, None),
        Seen::Has(pending) => looked.note(b, Some(view(accusing(pending), Marks::zero()))),
    }
}

fn view(bytes: Marks, names: Marks) -> View {
    let marks = AllMarks {
        bytes,
        attrs: Marks::zero(),
        names,
    };
    View {
        what: What::File,
        len: 7,
        marks,
    }
}

fn accusing(pending: [u32; 5]) -> Marks {
    Marks { dirty: 0, pending }
}

fn set(sources: &[bool; 5]) -> BrickSet {
    let mut set = BrickSet::none();
    for b in 0..5u8 {
        set = set.with_if(sources[b as usize], BrickId(b));
    }
    set
}

fn wanted(want: &Want) -> Verdict {
    match want {
        Want::Short => Verdict::Short,
        Want::Bare => Verdict::Bare,
        Want::Split => Verdict::Split,
        Want::Sources(sources) => Verdict::Sources(set(sources)),
    }
}

/// Whether the looks have this verdict over data.
fn judges(n: u8, arbiter: bool, seen: &[Seen], want: &Want) -> bool
    requires bricks { n ≤ 5 }
    requires looks { length seen.now ≤ 5 }
{
    judge(&Shape { n, arbiter }, &looked(seen), Kind::Bytes) == wanted(want)
}

#[test]
fn a_copy_is_a_source_where_nobody_accuses_it(rt: HostRuntime) {
    for (arbiter, seen, want) in &OF_THREE {
        let holds = judges(3, *arbiter, seen, want);
        assert!(rt; holds, "at {seen:?}");
    }
}

#[test]
fn of_five_bricks_three_have_to_be_reached(rt: HostRuntime) {
    for (seen, want) in &OF_FIVE {
        let holds = judges(5, false, seen, want);
        assert!(rt; holds, "at {seen:?}");
    }
}

fn three(arbiter: bool) -> Shape {
    Shape { n: 3, arbiter }
}

#[test]
fn the_arbiter_holds_attributes_and_data_numbers_are_of_data_alone(rt: HostRuntime) {
    let seen = looked(&[THIRD_ONCE, LACKS, CLEAN]);
    let two = BrickSet::all(3).without(BrickId(1));
    assert!(rt; holders(&seen) == two);
    assert!(rt; good(&three(true), &seen, Kind::Attrs) == two);
    assert!(rt; good(&three(false), &seen, Kind::Bytes) == BrickSet::all(1));
}
