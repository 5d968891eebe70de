//! Sets of bricks, changelog numbers and the text of a gfid.
use afr_base::{ActorId, AllMarks, BrickId, BrickSet, Gfid, Kind, Shape, gfid_text};
use std::test::Fail;

#[test]
fn two_of_three_are_a_majority_and_two_of_five_are_not(rt: HostRuntime) {
    let two = BrickSet::all(2);
    assert!(rt; two.has_quorum(3));
    assert!(rt; !two.has_quorum(5));
    assert!(rt; two.with(BrickId(4)).has_quorum(5));
    assert!(rt;
        !BrickSet::none()
            .with(BrickId(4))
            .with(BrickId(1))
            .has_quorum(3)
    );
    let rest = two.without(BrickId(0));
    assert!(rt; !rest.is_empty());
    assert_eq!(rt; rest.lowest(), BrickId(1));
    assert_eq!(rt; BrickSet::all(5).minus(two).count(), 3);
}

#[test]
fn a_missed_operation_is_held_against_its_brick(rt: HostRuntime) {
    let mut all = AllMarks::zero();
    let mut marks = all.of(Kind::Bytes);
    marks.raise_dirty();
    assert!(rt; !marks.is_zero());
    marks.after_op(BrickSet::none().with(BrickId(2)));
    assert!(rt; marks.accuses(BrickId(2)));
    assert!(rt; !marks.accuses(BrickId(1)));
    all.put(Kind::Bytes, marks);
    assert!(rt; !all.is_zero());
    let seen = all.of(Kind::Bytes);
    marks.settle(&seen);
    all.put(Kind::Bytes, marks);
    assert!(rt; all.is_zero());
}

#[test]
fn the_root_and_the_first_file_have_their_texts(rt: HostRuntime) -> Result<(), Fail> {
    let root = gfid_text(rt.alloc(), Gfid(1)).ok().ok_or("memory")?;
    assert_eq!(rt; root.as_str(), "00000000-0000-0000-0000-000000000001");
    let file = gfid_text(rt.alloc(), Gfid(0x1_0000_0000_0000_0001))
        .ok()
        .ok_or("memory")?;
    assert_eq!(rt; file.as_str(), "00000000-0000-0001-0000-000000000001");
    Ok(())
}

#[test]
fn the_arbiter_keeps_no_bytes_and_healers_follow_clients(rt: HostRuntime) {
    let arbiter = Shape {
        n: 3,
        arbiter: true,
    };
    assert!(rt; !arbiter.keeps(Kind::Bytes, BrickId(2)));
    assert!(rt; arbiter.keeps(Kind::Names, BrickId(2)));
    assert!(rt; arbiter.keeps(Kind::Bytes, BrickId(1)));
    assert_eq!(rt; ActorId::client(16), ActorId(16));
    assert_eq!(rt; ActorId::healer(1), ActorId(17));
    let ends = BrickSet::all(3).without(BrickId(1));
    assert_eq!(rt; BrickSet::all(2).common(ends), BrickSet::all(1));
}
