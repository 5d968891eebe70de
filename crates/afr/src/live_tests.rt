//! Tests of a run by threads.
ghost use Rattle.std.specs.Prelude.{◌≡◌};
ghost use Rattle.afr_volume.specs.State.{no_volume};

use afr_base::ActorId;
use afr_cli::afr_live;
use afr_live::{Gate, NoGate};
use afr_rule::{ReadRule, Rules, SourceRule, shipped};
use afr_text::{MemSink, MemSource};
use afr_volume::Volume;
use std::alloc::Global;
use std::sync::{Mutex, Wait};
use std::test::Fail;
use std::thread;
use std::thread::Threads;

/// Two clients that share no range, so every order of turns has one report.
pub(crate) const APART: &str =
    "afr 1\nvolume replica\nfiles 2\nturns 100000\nclient 1\nwrite /f1 0 \"a\"\nclient 2\nwrite /f2 0 \"b\"\nend\n";

const APART_REPORT: &str =
    "afr replica 3\nlines 48\nc1 1 of 1\n1 write ok\nc2 1 of 1\n1 write ok\nreach 0 1 2\nobjects 0\nsplit-brain 0\n";

/// Four clients that make files in one directory while a brick is away and comes back, and three healers.
pub(crate) const TREE: &str =
    "afr 1\nvolume replica\nfiles 0\nturns 100000\nclient 1\nmkdir /src\ncreate /src/a\nwrite /src/a 0 \"one\"\nclient 2\ncreate /src/b\nwrite /src/b 0 \"two\"\nclient 3\ncreate /src/c\nwrite /src/c 0 \"three\"\nclient 4\ncreate /src/d\nwrite /src/d 0 \"four\"\nhealer 1\nround 0\nhealer 2\nround 1\nhealer 3\nround 2\nat 0 stop 2\nat 189 start 2\ngo c1 59\ngo c2 43\ngo c3 43\ngo c4 43\ngo h1 348\nend\n";

/// The turn at which two clients meet.
const MEETING: u64 = 15;

/// How often an actor looks for the other at most.
const MOST_LOOKS: u32 = 10_000_000;

/// Who has come to the meeting.
#[derive(Clone, Copy, Debug)]
struct Come {
    first: bool,
    second: bool,
    /// One of the two didn't meet the other, however often it looked.
    missed: bool,
}

/// A gate that holds two actors at one of their turns, each until the other has come to its own. A run on one thread
/// doesn't pass it, in whatever order it takes the actors.
#[derive(Drop)]
pub(crate) struct Meeting<'a, R: Wait> {
    rt: &'a R,
    first: ActorId,
    second: ActorId,
    turn: u64,
    come: Mutex<Come>,
}

impl<'a, R: Wait> Meeting<'a, R> {
    pub(crate) fn new(rt: &'a R, first: ActorId, second: ActorId, turn: u64) -> Meeting<'a, R> {
        let nobody = Come {
            first: false,
            second: false,
            missed: false,
        };
        Meeting {
            rt,
            first,
            second,
            turn,
            come: Mutex::new(nobody),
        }
    }

    /// Notes that one of the two has come.
    fn note(&self, a: ActorId) {
        let mut come = self.come.lock(self.rt);
        if a == self.first {
            come.first = true;
        } else {
            come.second = true;
        }
    }

    fn have_both_come(&self) -> bool {
        let come = *self.come.lock(self.rt);
        come.first && come.second
    }

    /// Whether both came, and neither looked in vain for the other.
    pub(crate) fn have_met(&self) -> bool {
        let come = *self.come.lock(self.rt);
        come.first && come.second && !come.missed
    }
}

impl<R: Wait> Gate for Meeting<'_, R> {
    fn pass(&self, a: ActorId, turn: u64) {
        if turn != self.turn || (a != self.first && a != self.second) {
            return;
        }
        self.note(a);
        for _ in 0..MOST_LOOKS {
            if self.have_both_come() {
                return;
            }
        }
        self.come.lock(self.rt).missed = true;
    }
}

/// The status of a call by threads over this volume, by the rules that the program has.
pub(crate) fn live_into<R: Threads + Wait + Alloc<A = Global> + Sync, H: Gate + Sync>(
    rt: &R,
    words: &[String],
    source: &mut MemSource,
    sink: &mut MemSink,
    volume: &mut Volume,
    gate: &H,
) -> u8
    requires { volume.old ≡ no_volume }
{
    let rules = Rules {
        heal: SourceRule::new(shipped::longest),
        read: ReadRule::new(shipped::first),
    };
    afr_live(rt, rt.alloc(), words, source, sink, volume, &rules, gate)
}

/// The same over a new volume.
pub(crate) fn by_threads<R: Threads + Wait + Alloc<A = Global> + Sync, H: Gate + Sync>(
    rt: &R,
    words: &[String],
    source: &mut MemSource,
    sink: &mut MemSink,
    gate: &H,
) -> u8 {
    let mut volume = Volume::empty(rt.alloc());
    live_into(rt, words, source, sink, &mut volume, gate)
}

/// The status and the text of a run of the plan by threads, or of a crawl, by the word.
pub(crate) fn live_run<R: Threads + Wait + Alloc<A = Global> + Sync, H: Gate + Sync>(
    rt: &R,
    word: &str,
    plan: &str,
    gate: &H,
) -> Result<(u8, MemSink), Fail> {
    let alloc = rt.alloc();
    let words = vec![in alloc; String::from_str(alloc, word)?]?;
    let mut bytes = Vec::new(alloc);
    bytes.extend_from_slice(plan.as_bytes())?;
    let mut source = MemSource::new(bytes, 4096, Vec::new(alloc));
    let mut sink = MemSink::new(alloc, 4096, Vec::new(alloc));
    let status = by_threads(rt, &words, &mut source, &mut sink, gate);
    Ok((status, sink))
}

#[test]
fn two_clients_run_in_two_threads(rt: HostRuntime) -> Result<(), Fail> {
    let gate = Meeting::new(&rt, ActorId(1), ActorId(2), MEETING);
    let (status, sink) = live_run(&rt, "live", APART, &gate)?;
    assert_eq!(rt; status, 0);
    assert_eq!(rt; sink.taken(), APART_REPORT.as_bytes());
    assert!(rt; gate.have_met());
    Ok(())
}

#[test]
fn clients_and_healers_run_to_their_ends(rt: HostRuntime) -> Result<(), Fail> {
    let (status, sink) = live_run(&rt, "live", TREE, &NoGate)?;
    assert_eq!(rt; status, 0);
    assert!(rt; sink.taken().starts_with(b"afr replica 3\nlines "));
    Ok(())
}
