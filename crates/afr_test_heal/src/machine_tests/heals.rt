//! Heals on three bricks, of which the last missed a change, line by line.
use crate::machine_tests::lines::{
    OBJECT, asks, carries_attrs, heal_of, hears, hears_done, names_carried, reply_of, sees_behind,
    unlocks,
};
use afr_base::{BrickId, Gfid, Kind, NameId, NoMemory, What};
use afr_heal_machine::{HealMachine, HealOutcome};
use afr_lines::{Answer, Area, Domain, HealReply, Request};
use afr_object::{Entry, List, NameList, Repair};
use std::alloc::Global;

#[test]
fn attributes_are_read_at_the_source_and_put_at_the_others(rt: HostRuntime) {
    let mut machine = heal_of(rt.alloc(), Kind::Attrs);
    assert!(rt; !machine.has_looked());
    sees_behind(&mut machine, What::File, Kind::Attrs);
    assert!(rt; machine.has_looked() && machine.source() == BrickId(0));
    assert!(rt; matches!(machine.outcome(), HealOutcome::Settled));
    hears(&mut machine, Answer::Attrs(List::new(rt.alloc())), 11);
    hears(&mut machine, Answer::Done, 12);
    hears(&mut machine, Answer::Done, 13);
    assert!(rt; machine.ready().is_ok());
    assert!(rt; carries_attrs(&machine));
    hears(&mut machine, Answer::Done, 14);
    hears(&mut machine, Answer::Done, 15);
    hears_done(&mut machine, 16);
    hears_done(&mut machine, 19);
    hears_done(&mut machine, 22);
    assert!(rt; matches!(reply_of(&machine), Some(HealReply::Settled)));
    assert!(rt; machine.gfid() == OBJECT && machine.kind() == Kind::Attrs);
    assert!(rt; !machine.register().broken);
}

#[test]
fn bytes_are_cut_first_and_then_copied_in_a_piece(rt: HostRuntime) {
    let mut machine = heal_of(rt.alloc(), Kind::Bytes);
    sees_behind(&mut machine, What::File, Kind::Bytes);
    assert!(rt; matches!(asks(&machine, 1), Some(Request::Pre { .. })));
    hears(&mut machine, Answer::Done, 11);
    hears(&mut machine, Answer::Done, 12);
    assert!(rt;
        matches!(
            asks(&machine, 1),
            Some(Request::Mend {
                repair: Repair::CutTo { len: 7, .. }
            })
        )
    );
    hears(&mut machine, Answer::Done, 13);
    hears(&mut machine, Answer::Done, 14);
    assert!(rt; unlocks(&machine, Domain::Work, 0));
    hears_done(&mut machine, 15);
    assert!(rt;
        matches!(
            asks(&machine, 0),
            Some(Request::Lock {
                area: Area::Range {
                    from: 0,
                    to: 131_072,
                    ..
                },
                ..
            })
        )
    );
}

fn names(alloc: Global, first: u32, second: u32) -> Result<NameList, NoMemory> {
    let entry = Entry {
        gfid: Gfid(70),
        what: What::File,
    };
    let mut list = List::new(alloc);
    list.push((NameId(first), entry))?;
    list.push((NameId(second), entry))?;
    Ok(list)
}

fn hears_names(machine: &mut HealMachine, alloc: Global, first: u32, second: u32, at: u32) {
    if let Ok(list) = names(alloc, first, second) {
        hears(machine, Answer::Names(list), at);
    }
}

/// The next repair puts the merge of the first two bricks' lists.
fn merges(machine: &HealMachine, first: u32, second: u32) -> bool {
    match asks(machine, 0) {
        Some(
            Request::Mend {
                repair: Repair::PutNames { reads, .. },
            },
        ) => reads[0] == Some(first) && reads[1] == Some(second) && reads[2] == None,
        _ => false,
    }
}

#[test]
fn the_names_of_each_good_copy_are_merged(rt: HostRuntime) {
    let mut machine = heal_of(rt.alloc(), Kind::Names);
    sees_behind(&mut machine, What::Dir, Kind::Names);
    assert!(rt; matches!(asks(&machine, 0), Some(Request::List { .. })));
    hears_names(&mut machine, rt.alloc(), 1, 4, 11);
    hears_names(&mut machine, rt.alloc(), 4, 6, 12);
    hears_done(&mut machine, 13);
    assert!(rt; names_carried(&machine) == 0);
    assert!(rt; machine.ready().is_ok());
    assert!(rt; names_carried(&machine) == 3);
    assert!(rt; merges(&machine, 11, 12));
}
