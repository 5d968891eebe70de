//! Tests of runs that are recorded, and made again from their images.
use crate::live_tests::{APART, TREE, live_into};
use crate::tests::{PLAN, REPORT, SHORT, in_order};
use afr_live::NoGate;
use afr_report::report_text;
use afr_text::{MemSink, MemSource};
use afr_volume::Volume;
use std::alloc::Global;
use std::sync::Wait;
use std::test::Fail;
use std::thread::Threads;

/// Where the first step stands in the image of the plan of a write and a read.
const FIRST: usize = 104;

/// How often a run of threads is recorded and made again: each run has an order of its own.
const TIMES: u32 = 100;

/// A source of these bytes.
fn source_of(alloc: Global, bytes: &[u8]) -> Result<MemSource, Fail> {
    let mut given = Vec::new(alloc);
    given.extend_from_slice(bytes)?;
    Ok(MemSource::new(given, 4096, Vec::new(alloc)))
}

/// The status and the image of a run of the plan by threads, and the report of the volume that it left.
fn recorded<R: Threads + Wait + Alloc<A = Global> + Sync>(
    rt: &R,
    plan: &str,
) -> Result<(u8, MemSink, String), Fail> {
    let alloc = rt.alloc();
    let words = vec![in alloc; String::from_str(alloc, "record")?]?;
    let mut source = source_of(alloc, plan.as_bytes())?;
    let mut sink = MemSink::new(alloc, 4096, Vec::new(alloc));
    let mut volume = Volume::empty(alloc);
    let status = live_into(rt, &words, &mut source, &mut sink, &mut volume, &NoGate);
    let Ok(report) = report_text(alloc, &volume) else {
        return Err(Fail::from("memory"));
    };
    Ok((status, sink, report))
}

/// The status and the text of a replay of these bytes with 100,000 turns.
fn replayed(alloc: Global, image: &[u8]) -> Result<(u8, MemSink), Fail> {
    let words = vec![in alloc;
        String::from_str(alloc, "replay")?,
        String::from_str(alloc, "100000")?,
    ]?;
    let mut source = source_of(alloc, image)?;
    let mut sink = MemSink::new(alloc, 4096, Vec::new(alloc));
    let status = in_order(alloc, &words, &mut source, &mut sink);
    Ok((status, sink))
}

/// Whether a replay of these bytes has this status and text.
fn replays_to(alloc: Global, image: &[u8], want: u8, text: &str) -> Result<bool, Fail> {
    let (status, sink) = replayed(alloc, image)?;
    Ok(status == want && sink.taken() == text.as_bytes())
}

/// All bytes but the last.
fn without_last(image: &[u8]) -> &[u8] {
    match image.split_last() {
        Some((_, front)) => front,
        None => image,
    }
}

/// Whether these bytes stand there.
fn has_at(image: &[u8], at: usize, want: &[u8]) -> bool {
    at <= image.len() && image[at..].starts_with(want)
}

/// Whether a run of the plan by threads is done, and its report comes again from its image.
fn comes_again<R: Threads + Wait + Alloc<A = Global> + Sync>(
    rt: &R,
    plan: &str,
) -> Result<bool, Fail> {
    let (status, image, report) = recorded(rt, plan)?;
    Ok(status == 0 && replays_to(rt.alloc(), image.taken(), 0, report.as_str())?)
}

/// Whether these are the bytes of the image of a write and a read.
fn is_image(image: &[u8]) -> bool {
    image.len() == 203
        && has_at(image, 0, b"AFRIMG\x00\x01\x00\x00\x00\x58afr 1\n")
        && has_at(image, FIRST - 4, &[0, 0, 0, 33, 0x01, 0x00, 0x02])
        && has_at(image, FIRST + 30, &[0x01, 0xff, 0x09])
        && has_at(image, FIRST + 69, &[0x01, 0xff, 0x10])
}

/// Whether a run of the plan by threads ends with this status, and its image is so long and gives the report when it is made again.
fn is_recorded<R: Threads + Wait + Alloc<A = Global> + Sync>(
    rt: &R,
    plan: &str,
    want: u8,
    len: usize,
) -> Result<bool, Fail> {
    let (status, image, _) = recorded(rt, plan)?;
    let image = image.taken();
    Ok(status == want && image.len() == len && replays_to(rt.alloc(), image, 0, REPORT)?)
}

fn has_its_image<R: Threads + Wait + Alloc<A = Global> + Sync>(rt: &R) -> Result<bool, Fail> {
    let (_, image, _) = recorded(rt, PLAN)?;
    Ok(is_image(image.taken()))
}

#[test]
fn a_write_and_a_read_are_recorded(rt: HostRuntime) -> Result<(), Fail> {
    let recorded = is_recorded(&rt, PLAN, 0, 203)?;
    assert!(rt; recorded);
    let image = has_its_image(&rt)?;
    assert!(rt; image);
    Ok(())
}

#[test]
fn a_run_that_was_cut_short_goes_on(rt: HostRuntime) -> Result<(), Fail> {
    let holds = is_recorded(&rt, SHORT, 7, 130)?;
    assert!(rt; holds);
    Ok(())
}

#[test]
fn other_images_are_refused_or_differ(rt: HostRuntime) -> Result<(), Fail> {
    let (_, sink, _) = recorded(&rt, PLAN)?;
    let mut image = Vec::new(rt.alloc());
    image.extend_from_slice(sink.taken())?;
    if image.len() != 203 {
        return Err(Fail::from("length"));
    }
    let short = "image refused: at 202, code 12 short\n";
    assert!(rt; replays_to(rt.alloc(), without_last(&image), 9, short)?);
    image[FIRST + 2] = 0x03;
    assert!(rt; replays_to(rt.alloc(), &image, 10, "replay differs: line 0\n")?);
    Ok(())
}

#[test]
fn threads_come_again_in_their_order(rt: HostRuntime) -> Result<(), Fail> {
    for _ in 0..TIMES {
        assert!(rt; comes_again(&rt, APART)?);
    }
    Ok(())
}

#[test]
fn clients_and_healers_come_again(rt: HostRuntime) -> Result<(), Fail> {
    for _ in 0..TIMES {
        assert!(rt; comes_again(&rt, TREE)?);
    }
    Ok(())
}
