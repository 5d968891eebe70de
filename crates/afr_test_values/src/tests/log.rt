//! One log, in which each public call has its part.
use afr_base::{ActorId, AllMarks, BrickId, Gfid, NameId, NoMemory, What};
use afr_lines::{Answer, Area, Domain, Event, Line, Request, Told};
use afr_log::{Log, ToldLine};
use afr_object::View;
use std::alloc::Global;
use std::test::Fail;

const DIR: Gfid = Gfid(1);

fn lock() -> Request {
    Request::Lock {
        domain: Domain::Work,
        area: Area::Name {
            gfid: DIR,
            name: Some(NameId(3)),
        },
    }
}

/// What a look shows of a directory with one open operation on its names.
fn marked() -> Answer {
    let mut marks = AllMarks::zero();
    marks.names.dirty = 1;
    Answer::Seen(View {
        what: What::Dir,
        len: 0,
        marks,
    })
}

/// A lock that is kept out, a look that shows a number, and a stop.
fn written(alloc: Global) -> Result<Log, NoMemory> {
    let look = Request::Look { gfid: DIR };
    let stop = Line::Event {
        event: Event::Stop(BrickId(1)),
    };
    let mut log = Log::new(alloc);
    log.make_room()?;
    log.add_ask(
        ActorId(1),
        BrickId(0),
        &lock(),
        &Answer::Held(ActorId(2)),
        true,
    );
    log.make_room()?;
    log.add_ask(ActorId(1), BrickId(2), &look, &marked(), true);
    log.make_room()?;
    log.add(stop);
    Ok(log)
}

/// Whether the log shows the lock as it was asked and answered.
fn shows_the_lock(log: &Log) -> bool {
    let Some(shown) = log.line(0) else {
        return false;
    };
    matches!(
        shown.as_line(),
        Line::Ask {
            actor: ActorId(1),
            brick: BrickId(0),
            request: Request::Lock {
                domain: Domain::Work,
                area: Area::Name {
                    gfid: Gfid(1),
                    name: Some(NameId(3)),
                },
            },
            told: Told::Held(ActorId(2)),
            took: true,
        }
    )
}

/// Whether the log shows the number that the look showed.
fn shows_the_number(log: &Log) -> bool {
    let Some(shown) = log.line(1) else {
        return false;
    };
    match shown.as_line() {
        Line::Ask {
            told: Told::Seen(view),
            ..
        } => view.marks.names.dirty == 1,
        _ => false,
    }
}

fn tells_the_stop_alone(log: &Log) -> bool {
    let stop = matches!(
        log.told_at(2),
        Some(ToldLine::Kept(Line::Event {
            event: Event::Stop(BrickId(1)),
        }))
    );
    stop && log.told_at(0).is_none() && log.told_at(1).is_none() && log.told_at(3).is_none()
}

/// Whether the log shows each line as it was added, and who was waited for.
fn shows_each(log: &Log) -> bool {
    log.len() == 3
        && shows_the_lock(log)
        && shows_the_number(log)
        && tells_the_stop_alone(log)
        && log.line(3).is_none()
        && log.waits_at(0) == Some(ActorId(2))
        && log.waits_at(2).is_none()
}

fn is_shown(alloc: Global) -> Result<bool, NoMemory> {
    let log = written(alloc)?;
    Ok(shows_each(&log))
}

#[test]
fn each_line_is_shown_as_it_was_added(rt: HostRuntime) -> Result<(), Fail> {
    let shown = is_shown(rt.alloc()).ok().ok_or("memory")?;
    assert!(rt; shown);
    Ok(())
}
