//! Sources and sinks, piece by piece and whole.
ghost use Rattle.std.specs.Prelude.{◌<◌};

use afr_text::{
    Failed, MemSink, MemSource, ReadStop, Sink, Source, StdSink, StdSource, SureSink, SureSource,
    WriteFault, read_all, write_all,
};
use std::alloc::{AllocError, Global};
use std::io::Cursor;
use std::test::Fail;

/// At most so many bytes a read, the longest text, the read that fails, and what is read of five bytes.
const READS: [(usize, usize, u32, Result<usize, ReadStop>); 5] = [
    (1, 5, 99, Ok(5)),
    (3, 5, 99, Ok(5)),
    (3, 4, 99, Err(ReadStop::TooLong)),
    (1, 5, 6, Err(ReadStop::ReadFault)),
    (1, 5, 7, Ok(5)),
];

/// Two bytes, a failure, and the third byte.
fn reads_two_and_one(source: &mut MemSource) -> bool {
    let mut piece = [0u8; 4];
    source.read(&mut piece) == Ok(2)
        && piece == [1, 2, 0, 0]
        && source.read(&mut piece) == Err(Failed)
        && source.read(&mut piece) == Ok(1)
        && piece == [3, 2, 0, 0]
}

fn planned_source_gives(alloc: Global) -> Result<bool, AllocError> {
    let bytes = [1u8, 2, 3].to_vec(alloc)?;
    let fails = [2u32].to_vec(alloc)?;
    Ok(reads_two_and_one(&mut MemSource::new(bytes, 2, fails)))
}

fn reads_three(source: &mut SureSource) -> bool {
    let mut piece = [0u8; 4];
    source.read(&mut piece) == Ok(3) && piece == [7, 8, 9, 0] && source.read(&mut piece) == Ok(0)
}

fn sure_source_gives(alloc: Global) -> Result<bool, AllocError> {
    let bytes = [7u8, 8, 9].to_vec(alloc)?;
    Ok(reads_three(&mut SureSource::new(bytes)))
}

#[test]
fn gives_the_next_bytes(rt: HostRuntime) -> Result<(), Fail> {
    let planned = planned_source_gives(rt.alloc())?;
    assert!(rt; planned);
    let sure = sure_source_gives(rt.alloc())?;
    assert!(rt; sure);
    Ok(())
}

fn takes_two(sink: &mut MemSink) -> bool {
    sink.write(b"afr") == Ok(2) && sink.taken() == b"af".as_slice()
}

#[test]
fn takes_the_first_bytes(rt: HostRuntime) {
    let takes = takes_two(&mut MemSink::new(rt.alloc(), 2, Vec::new(rt.alloc())));
    assert!(rt; takes);
    let takes = SureSink::new().write(b"afr") == Ok(3);
    assert!(rt; takes);
}

#[test]
fn reads_what_a_reader_has(rt: HostRuntime) {
    let mut piece = [0u8; 4];
    let mut source = StdSource::new(b"afr".as_slice());
    assert_eq!(rt; source.read(&mut piece), Ok(3));
    assert_eq!(rt; piece, *b"afr\0");
    assert_eq!(rt; source.read(&mut piece), Ok(0));
}

fn appends(bytes: &mut Vec<u8>) -> bool {
    let wrote = StdSink::new(&mut *bytes).write(b"ab");
    wrote == Ok(2) && bytes.as_slice() == [97u8, 98].as_slice()
}

fn fills_up() -> bool {
    let mut full = StdSink::new(Cursor::new([0u8; 1]));
    full.write(b"ab") == Ok(1) && full.write(b"b") == Err(Failed)
}

#[test]
fn writes_to_a_writer(rt: HostRuntime) {
    let appended = appends(&mut Vec::new(rt.alloc()));
    assert!(rt; appended);
    let filled = fills_up();
    assert!(rt; filled);
}

fn read_in_pieces(
    alloc: Global,
    most: usize,
    limit: usize,
    fails: u32,
) -> Result<Result<usize, ReadStop>, AllocError>
    requires { 0 < most }
{
    let bytes = [1u8, 2, 3, 4, 5].to_vec(alloc)?;
    let fails = [fails].to_vec(alloc)?;
    let mut source = MemSource::new(bytes, most, fails);
    Ok(read_all(alloc, &mut source, limit).map(|all| all.len()))
}

#[test]
fn reads_in_pieces_and_stops_at_a_fault(rt: HostRuntime) -> Result<(), Fail> {
    for (most, limit, fails, want) in READS {
        assert!(rt; most > 0);
        let read = read_in_pieces(rt.alloc(), most, limit, fails)?;
        assert!(rt;
            read == want,
            "{most} at a time, at most {limit}, failing at {fails}"
        );
    }
    Ok(())
}

fn stops_and_goes_on(sink: &mut MemSink) -> bool {
    write_all(&mut *sink, b"afr replica") == Err(WriteFault)
        && sink.taken() == b"afr ".as_slice()
        && write_all(&mut *sink, b"replica") == Ok(())
        && sink.taken() == b"afr replica".as_slice()
}

#[test]
fn writes_up_to_a_fault(rt: HostRuntime) -> Result<(), Fail> {
    let fails = [2u32].to_vec(rt.alloc())?;
    let holds = stops_and_goes_on(&mut MemSink::new(rt.alloc(), 4, fails));
    assert!(rt; holds);
    Ok(())
}
