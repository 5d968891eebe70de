//! Logs with each answer, change, reply, heal and event once.

use afr_base::{ActorId, AllMarks, BrickId, Gfid, KeyId, Kind, NameId, NoMemory, ValueId, What};
use afr_lines::{Event, Good, HealReply, Line, Reply, Request, Told};
use afr_object::{Change, Chunk, Entry, List, NameList, View, Views};
use std::alloc::Global;

const ROOT: Gfid = Gfid(1);

const OTHER: Gfid = Gfid(9);

/// The opening file.
const FILE: Gfid = Gfid(0x1_0000_0000_0000_0001);

const NOTE: NameId = NameId(1);

/// An answer to a healer's request.
fn answer(told: Told, took: bool) -> Line {
    Line::Ask {
        actor: ActorId(19),
        brick: BrickId(0),
        request: Request::Index,
        told,
        took,
    }
}

pub fn answers(alloc: Global) -> Result<Vec<Line>, NoMemory> {
    let view = View {
        what: What::File,
        len: 5,
        marks: AllMarks::zero(),
    };
    let lines = [
        answer(Told::Granted, true),
        answer(Told::Held(ActorId(17)), true),
        answer(Told::Held(ActorId(16)), true),
        answer(Told::Seen(view), true),
        answer(Told::Done, true),
        answer(Told::Given, true),
        answer(Told::NoObject, true),
        answer(Told::NotConnected, false),
        answer(Told::NotConnected, true),
        answer(Told::Failed, false),
    ];
    Ok(Vec::from_array(alloc, lines)?)
}

fn hello(alloc: Global) -> Result<Chunk, NoMemory> {
    Chunk::from_vec(b"hello".to_vec(alloc)?)
}

fn begin(change: Change) -> Line {
    Line::Begin {
        actor: ActorId(16),
        change,
    }
}

fn make(gfid: Gfid, what: What) -> Line {
    begin(Change::Make {
        dir: ROOT,
        name: NOTE,
        gfid,
        what,
    })
}

fn remove(dir: Gfid, name: NameId, what: What) -> Line {
    begin(Change::Remove { dir, name, what })
}

pub fn changes(alloc: Global) -> Result<Vec<Line>, NoMemory> {
    let bytes = hello(alloc)?;
    let lines = [
        begin(Change::Write {
            gfid: FILE,
            at: 1024,
            bytes,
        }),
        begin(Change::Cut { gfid: FILE, len: 5 }),
        begin(Change::SetAttr {
            gfid: FILE,
            key: KeyId(0),
            value: ValueId(0),
        }),
        make(OTHER, What::File),
        make(FILE, What::Dir),
        remove(OTHER, NameId(0), What::File),
        remove(ROOT, NOTE, What::Dir),
    ];
    Ok(Vec::from_array(alloc, lines)?)
}

fn end(reply: Reply) -> Line {
    Line::End {
        actor: ActorId(1),
        reply,
    }
}

fn given(good: Good) -> Line {
    end(Reply::Ok(good))
}

fn two_names(alloc: Global) -> Result<NameList, NoMemory> {
    let entry = Entry {
        gfid: OTHER,
        what: What::File,
    };
    let mut names = List::new(alloc);
    names.push((NOTE, entry))?;
    names.push((NameId(0), entry))?;
    Ok(names)
}

fn stat(gfid: Gfid, what: What, len: u32) -> Line {
    let entry = Entry { gfid, what };
    given(Good::Stat { entry, len })
}

/// Ends with each sort of thing that a command gives.
pub fn gifts(alloc: Global) -> Result<Vec<Line>, NoMemory> {
    let bytes = hello(alloc)?;
    let names = two_names(alloc)?;
    let lines = [
        given(Good::Done),
        given(Good::Bytes(bytes)),
        given(Good::Bytes(Chunk::new(alloc))),
        given(Good::Names(names)),
        given(Good::Names(List::new(alloc))),
        given(Good::Value(Some(ValueId(0)))),
        given(Good::Value(None)),
        stat(FILE, What::File, 70),
        stat(OTHER, What::Dir, 0),
    ];
    Ok(Vec::from_array(alloc, lines)?)
}

pub fn refusals(alloc: Global) -> Result<Vec<Line>, NoMemory> {
    let lines = [
        end(Reply::NoEntry),
        end(Reply::Exists),
        end(Reply::NotDir),
        end(Reply::IsDir),
        end(Reply::NotEmpty),
        end(Reply::NoQuorum),
        end(Reply::FewCopies),
        end(Reply::SplitBrain(Views::new(alloc, &[None; 5])?)),
        end(Reply::Failed),
        end(Reply::TooLarge),
        end(Reply::Half),
    ];
    Ok(Vec::from_array(alloc, lines)?)
}

fn heal_begin(actor: u16, gfid: Gfid, kind: Kind) -> Line {
    Line::HealBegin {
        actor: ActorId(actor),
        gfid,
        kind,
    }
}

fn heal_end(reply: HealReply) -> Line {
    Line::HealEnd {
        actor: ActorId(17),
        gfid: ROOT,
        kind: Kind::Names,
        reply,
    }
}

pub fn heals(alloc: Global) -> Result<Vec<Line>, NoMemory> {
    let lines = [
        heal_begin(17, FILE, Kind::Bytes),
        heal_begin(18, ROOT, Kind::Attrs),
        heal_begin(19, OTHER, Kind::Names),
        heal_end(HealReply::Nothing),
        heal_end(HealReply::Settled),
        heal_end(HealReply::Split(Views::new(alloc, &[None; 5])?)),
        heal_end(HealReply::Busy(ActorId(18))),
        heal_end(HealReply::Short),
        heal_end(HealReply::Moved(BrickId(1))),
        heal_end(HealReply::Failed),
    ];
    Ok(Vec::from_array(alloc, lines)?)
}

fn event(event: Event) -> Line {
    Line::Event { event }
}

pub fn events(alloc: Global) -> Result<Vec<Line>, NoMemory> {
    let lines = [
        event(Event::Stop(BrickId(1))),
        event(Event::Start(BrickId(0))),
        event(Event::Cut(ActorId(1), BrickId(2))),
        event(Event::Join(ActorId(17), BrickId(2))),
        event(Event::Kill(ActorId(16))),
    ];
    Ok(Vec::from_array(alloc, lines)?)
}
