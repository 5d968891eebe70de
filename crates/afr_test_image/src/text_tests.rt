//! An image as bytes and back, and what is refused of it.
use crate::images::{FIRST, SHORT, STEPS, put_together, whole_image};
use afr_image::{ImageFault, ImageStop, codes, print_image, read_image, read_image_for};
use std::alloc::Global;
use std::test::Fail;

/// The fault for which bytes are refused where a replay has so many turns.
fn fault_of(alloc: Global, bytes: &[u8], turns: u32) -> Option<ImageFault> {
    if bytes.len() > 1000 {
        return None;
    }
    match read_image_for(alloc, bytes, turns) {
        Err(ImageStop::Refused(fault)) => Some(fault),
        _ => None,
    }
}

fn is_refused(alloc: Global, bytes: &[u8], turns: u32, at: u32, code: u8) -> bool {
    fault_of(alloc, bytes, turns) == Some(ImageFault { at, code })
}

/// What is printed of the image that bytes stand for.
fn printed_again(alloc: Global, bytes: &[u8]) -> Result<Vec<u8>, Fail> {
    if bytes.len() > 1000 {
        return Err(Fail::from("long"));
    }
    let Ok(image) = read_image(alloc, bytes) else {
        return Err(Fail::from("refused"));
    };
    match print_image(alloc, &image) {
        Ok(printed) => Ok(printed),
        Err(_) => Err(Fail::from("memory")),
    }
}

#[test]
fn an_image_is_printed_as_it_was_read(rt: HostRuntime) -> Result<(), Fail> {
    let bytes = whole_image(rt.alloc())?;
    let printed = printed_again(rt.alloc(), &bytes)?;
    assert_eq!(rt; printed.len(), 203);
    assert!(rt; printed.as_slice() == bytes.as_slice());
    Ok(())
}

/// The same of the first bytes.
fn is_front_refused(alloc: Global, bytes: &[u8], len: usize, at: u32, code: u8) -> bool {
    len <= bytes.len() && is_refused(alloc, &bytes[..len], 40, at, code)
}

fn put(bytes: &mut Vec<u8>, at: usize, byte: u8) {
    if at < bytes.len() {
        bytes[at] = byte;
    }
}

#[test]
fn bytes_that_end_too_early_are_short(rt: HostRuntime) -> Result<(), Fail> {
    let bytes = whole_image(rt.alloc())?;
    assert!(rt; is_front_refused(rt.alloc(), &bytes, 202, 202, codes::SHORT));
    assert!(rt; is_front_refused(rt.alloc(), &bytes, 9, 9, codes::SHORT));
    assert!(rt; is_front_refused(rt.alloc(), &bytes, 7, 0, codes::MAGIC));
    Ok(())
}

#[test]
fn the_first_refusal_counts(rt: HostRuntime) -> Result<(), Fail> {
    let alloc = rt.alloc();
    let mut bytes = whole_image(alloc)?;
    put(&mut bytes, FIRST + 17, 12);
    assert!(rt; is_refused(alloc, &bytes, 40, 119, codes::STEP));
    assert!(rt; is_refused(alloc, &bytes, 32, 100, codes::TURNS));
    put(&mut bytes, 12, 98);
    assert!(rt; is_refused(alloc, &bytes, 32, 12, codes::PLAN));
    bytes.push(0)?;
    assert!(rt; is_refused(alloc, &bytes, 32, 203, codes::TAIL));
    put(&mut bytes, 0, 66);
    assert!(rt; is_refused(alloc, &bytes, 32, 0, codes::MAGIC));
    Ok(())
}

#[test]
fn a_plan_has_no_more_steps_than_turns(rt: HostRuntime) -> Result<(), Fail> {
    let bytes = put_together(rt.alloc(), SHORT, 84, &STEPS, 33)?;
    assert!(rt; is_refused(rt.alloc(), &bytes, 100_000, 96, codes::TURNS));
    Ok(())
}
