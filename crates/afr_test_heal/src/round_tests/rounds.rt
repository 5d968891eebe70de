//! Rounds over an index that shows a file or two objects, line by line.
use crate::round_tests::lines::{
    DIRECTORY, OBJECT, asks_for_a_lock, asks_for_the_index, crawl_of, ends_well, ends_with_nothing,
    finds_nothing, hears, hears_index, hears_index_of_two, round_of, task_of,
};
use afr_base::Kind;
use afr_lines::Answer;
use afr_object::Load;
use std::test::Fail;

#[test]
fn a_file_has_its_attributes_healed_and_then_its_bytes(rt: HostRuntime) {
    let mut machine = round_of(rt.alloc());
    assert!(rt; machine.ready().is_ok());
    assert!(rt; asks_for_the_index(&machine));
    hears_index(&mut machine, rt.alloc());
    for (kind, from) in [(Kind::Attrs, 1), (Kind::Bytes, 18)] {
        assert!(rt; machine.ready().is_ok());
        assert!(rt; asks_for_a_lock(&machine));
        assert!(rt; matches!(machine.load(), Load::Nothing));
        finds_nothing(&mut machine, from);
        assert!(rt; ends_with_nothing(&mut machine, OBJECT, kind));
    }
    assert!(rt; ends_well(&machine));
    hears(&mut machine, Answer::Done, 35);
    assert!(rt; ends_well(&machine));
}

#[test]
fn attributes_come_before_names_and_bytes(rt: HostRuntime) {
    let mut machine = round_of(rt.alloc());
    assert!(rt; asks_for_the_index(&machine));
    hears_index_of_two(&mut machine, rt.alloc());
    let heals = [
        (DIRECTORY, Kind::Attrs, 1),
        (DIRECTORY, Kind::Names, 18),
        (OBJECT, Kind::Attrs, 35),
        (OBJECT, Kind::Bytes, 52),
    ];
    for (object, kind, from) in heals {
        assert!(rt; asks_for_a_lock(&machine));
        finds_nothing(&mut machine, from);
        assert!(rt; ends_with_nothing(&mut machine, object, kind));
    }
    assert!(rt; ends_well(&machine));
}

#[test]
fn a_crawler_lists_and_heals_nothing(rt: HostRuntime) {
    let mut machine = crawl_of(rt.alloc());
    assert!(rt; asks_for_the_index(&machine));
    hears_index(&mut machine, rt.alloc());
    assert!(rt; ends_well(&machine));
}

#[test]
fn a_task_asks_for_no_index(rt: HostRuntime) -> Result<(), Fail> {
    let machine = task_of(rt.alloc()).ok().ok_or("memory")?;
    assert!(rt; asks_for_a_lock(&machine));
    Ok(())
}
