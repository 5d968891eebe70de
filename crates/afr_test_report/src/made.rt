//! Plans and logs that are made by hand.

use afr_base::{ActorId, BrickId, Gfid, NameId, NoMemory, Shape, ValueId, What};
use afr_lines::{Event, Good, Line, Reply};
use afr_object::{Chunk, Entry, List, NameList};
use afr_plan::{Command, Plan, Rounds, Script, Scripts, Word, WordList, Words};
use std::alloc::Global;

/// A plan of three bricks, with no opening file and two names.
pub fn plan_of(
    alloc: Global,
    arbiter: bool,
    clients: Scripts,
    healers: Rounds,
) -> Result<Plan, NoMemory> {
    Ok(Plan {
        shape: Shape { n: 3, arbiter },
        files: 0,
        turns: 99,
        clients,
        healers,
        faults: List::new(alloc),
        events: List::new(alloc),
        go: List::new(alloc),
        words: Words {
            names: words(alloc, &[b"later".as_slice(), b"early".as_slice()])?,
            keys: List::new(alloc),
            values: words(alloc, &[b"alice".as_slice()])?,
        },
    })
}

fn words(alloc: Global, texts: &[&[u8]]) -> Result<WordList, NoMemory> {
    let mut list = List::new(alloc);
    for text in texts {
        list.push(word(alloc, text)?)?;
    }
    Ok(list)
}

fn word(alloc: Global, text: &[u8]) -> Result<Word, NoMemory> {
    Ok(List::from_vec(text.to_vec(alloc)?))
}

fn write(alloc: Global) -> Command {
    Command::Write {
        path: List::new(alloc),
        at: 0,
        bytes: Chunk::new(alloc),
    }
}

fn read(alloc: Global) -> Command {
    Command::Read {
        path: List::new(alloc),
        at: 0,
        len: 5,
    }
}

/// One client's write and as many reads as stand for all that a command gives.
pub fn one_client(alloc: Global, reads: usize) -> Result<Scripts, NoMemory> {
    let mut script: Script = List::new(alloc);
    script.push(write(alloc))?;
    for _ in 0..reads {
        script.push(read(alloc))?;
    }
    let mut clients = List::new(alloc);
    clients.push(script)?;
    Ok(clients)
}

/// One client's two reads and another's read.
pub fn two_readers(alloc: Global) -> Result<Scripts, NoMemory> {
    let mut first: Script = List::new(alloc);
    first.push(read(alloc))?;
    first.push(read(alloc))?;
    let mut second: Script = List::new(alloc);
    second.push(read(alloc))?;
    let mut clients = List::new(alloc);
    clients.push(first)?;
    clients.push(second)?;
    Ok(clients)
}

fn end(actor: u16, reply: Reply) -> Line {
    Line::End {
        actor: ActorId(actor),
        reply,
    }
}

fn event(event: Event) -> Line {
    Line::Event { event }
}

fn two_names(alloc: Global) -> Result<NameList, NoMemory> {
    let entry = Entry {
        gfid: Gfid(7),
        what: What::File,
    };
    let mut names = List::new(alloc);
    names.push((NameId(0), entry))?;
    names.push((NameId(1), entry))?;
    Ok(names)
}

fn stat(what: What, len: u32) -> Line {
    let entry = Entry {
        gfid: Gfid(0x1_0000_0000_0000_0002),
        what,
    };
    end(1, Reply::Ok(Good::Stat { entry, len }))
}

/// The ends of a write and of nine reads, which give each sort of thing once.
pub fn each_reply(alloc: Global) -> Result<Vec<Line>, NoMemory> {
    let hello = Chunk::from_vec(b"hello".to_vec(alloc)?)?;
    let lines = [
        end(1, Reply::Ok(Good::Done)),
        end(1, Reply::Ok(Good::Bytes(hello))),
        end(1, Reply::Ok(Good::Bytes(Chunk::new(alloc)))),
        end(1, Reply::NoEntry),
        end(1, Reply::Ok(Good::Names(two_names(alloc)?))),
        end(1, Reply::Ok(Good::Names(List::new(alloc)))),
        end(1, Reply::Ok(Good::Value(Some(ValueId(0))))),
        end(1, Reply::Ok(Good::Value(None))),
        stat(What::File, 70),
        stat(What::Dir, 0),
    ];
    Ok(Vec::from_array(alloc, lines)?)
}

/// A client is killed after its first read, and two bricks are stopped.
pub fn dead_and_short(alloc: Global) -> Result<Vec<Line>, NoMemory> {
    let lines = [
        event(Event::Stop(BrickId(0))),
        event(Event::Stop(BrickId(2))),
        end(1, Reply::FewCopies),
        event(Event::Kill(ActorId(1))),
    ];
    Ok(Vec::from_array(alloc, lines)?)
}
