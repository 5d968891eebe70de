//! Logs in which a brick is asked each request once.

use afr_base::{ActorId, BrickId, BrickSet, Gfid, KeyId, Kind, Marks, NameId, NoMemory};
use afr_lines::{Area, Domain, Line, Request, Told};
use afr_object::Repair;
use std::alloc::Global;

/// Where ranges of bytes end, and the range of the attributes begins.
const RANGE_END: u64 = 9_223_372_036_854_775_808;

const ROOT: Gfid = Gfid(1);

const OTHER: Gfid = Gfid(9);

/// The opening file.
const FILE: Gfid = Gfid(0x1_0000_0000_0000_0001);

/// What would be a second opening file, which the plan doesn't have.
const PAST_THE_FILES: Gfid = Gfid(0x1_0000_0000_0000_0002);

const BEFORE_THE_FILES: Gfid = Gfid(0x1_0000_0000_0000_0000);

fn ask(actor: u16, brick: u8, request: Request) -> Line {
    Line::Ask {
        actor: ActorId(actor),
        brick: BrickId(brick),
        request,
        told: Told::Done,
        took: true,
    }
}

fn asked(request: Request) -> Line {
    ask(1, 2, request)
}

fn lock(domain: Domain, area: Area) -> Line {
    asked(Request::Lock { domain, area })
}

fn unlock(domain: Domain, area: Area) -> Line {
    asked(Request::Unlock { domain, area })
}

fn range(gfid: Gfid, from: u64, to: u64) -> Area {
    Area::Range { gfid, from, to }
}

fn look(gfid: Gfid) -> Line {
    asked(Request::Look { gfid })
}

/// Each kind of area locked and unlocked, and looks at objects beside the opening file.
pub fn locks_and_looks(alloc: Global) -> Result<Vec<Line>, NoMemory> {
    let note = Area::Name {
        gfid: ROOT,
        name: Some(NameId(1)),
    };
    let whole = Area::Name {
        gfid: OTHER,
        name: None,
    };
    let lines = [
        lock(Domain::Work, range(FILE, 0, 5)),
        unlock(Domain::Work, range(FILE, 5, RANGE_END)),
        lock(Domain::Work, range(FILE, RANGE_END, RANGE_END + 1)),
        lock(Domain::Heal, range(ROOT, 0, RANGE_END)),
        lock(Domain::Work, note),
        unlock(Domain::Heal, whole),
        look(FILE),
        look(ROOT),
        look(PAST_THE_FILES),
        look(BEFORE_THE_FILES),
        look(OTHER),
    ];
    Ok(Vec::from_array(alloc, lines)?)
}

pub fn other_reads(alloc: Global) -> Result<Vec<Line>, NoMemory> {
    let lines = [
        asked(Request::ReadBytes {
            gfid: FILE,
            at: 3,
            len: 65_536,
        }),
        asked(Request::ReadName {
            gfid: ROOT,
            name: NameId(0),
        }),
        asked(Request::List { gfid: ROOT }),
        asked(Request::ReadAttr {
            gfid: FILE,
            key: KeyId(0),
        }),
        asked(Request::ReadAttrs { gfid: OTHER }),
        asked(Request::Index),
    ];
    Ok(Vec::from_array(alloc, lines)?)
}

fn pre(gfid: Gfid, kind: Kind) -> Line {
    asked(Request::Pre { gfid, kind })
}

fn post(actor: u16, brick: u8, missed: BrickSet) -> Line {
    let request = Request::Post {
        attempt: 10,
        gfid: FILE,
        kind: Kind::Bytes,
        missed,
    };
    ask(actor, brick, request)
}

/// The phases of a transaction; its last step misses no brick, one, and two.
pub fn phases(alloc: Global) -> Result<Vec<Line>, NoMemory> {
    let first = BrickSet::none().with(BrickId(0));
    let outer = BrickSet::none().with(BrickId(2)).with(BrickId(0));
    let lines = [
        pre(FILE, Kind::Bytes),
        pre(FILE, Kind::Attrs),
        pre(ROOT, Kind::Names),
        asked(Request::Apply { attempt: 10 }),
        post(1, 2, BrickSet::none()),
        post(1, 2, first),
        post(1, 2, outer),
    ];
    Ok(Vec::from_array(alloc, lines)?)
}

fn mend(repair: Repair) -> Line {
    asked(Request::Mend { repair })
}

fn put_names(reads: [Option<u32>; 5]) -> Line {
    mend(Repair::PutNames { gfid: ROOT, reads })
}

fn settle(actor: u16, brick: u8) -> Line {
    let less = Marks {
        dirty: 1,
        pending: [2, 3, 4, 5, 6],
    };
    let request = Request::Settle {
        gfid: FILE,
        kind: Kind::Bytes,
        less,
    };
    ask(actor, brick, request)
}

/// Each repair, of names from two lists, from one, and from none; and what a heal takes back.
pub fn repairs(alloc: Global) -> Result<Vec<Line>, NoMemory> {
    let lines = [
        mend(Repair::CutTo { gfid: FILE, len: 5 }),
        mend(Repair::Copy {
            gfid: FILE,
            at: 131_072,
            span: 131_072,
            read: 64,
        }),
        mend(Repair::PutAttrs {
            gfid: FILE,
            read: 33,
        }),
        put_names([Some(46), None, Some(47), None, None]),
        put_names([None, Some(7), None, None, None]),
        put_names([None; 5]),
        settle(1, 2),
    ];
    Ok(Vec::from_array(alloc, lines)?)
}

/// The requests that name bricks, in a volume of five.
pub fn five_bricks(alloc: Global) -> Result<Vec<Line>, NoMemory> {
    let missed = BrickSet::none()
        .with(BrickId(4))
        .with(BrickId(1))
        .with(BrickId(3));
    let lines = [settle(17, 4), post(17, 4, missed)];
    Ok(Vec::from_array(alloc, lines)?)
}
