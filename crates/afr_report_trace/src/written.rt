//! A gathered trace is written, without any more memory.
ghost use Rattle.std.specs.Prelude.{◌≡◌, ◌++◌, ◌+◌, ◌<◌, ◌≤◌, [], OnErr, OnOk, decimal, length, vec_capacity, vec_len};
ghost use Rattle.std.specs.Io.KnownBytes.{Appends};
ghost use Rattle.afr_text.specs.Causes.{HasCause};
ghost use Rattle.afr_text.specs.Parts.{AppendsFront};
ghost use Rattle.afr_report_trace.specs.Texts.{AreRows, HasRoom, text_to};
ghost use Rattle.afr_report_trace.specs.Written.{HandsOn};

use crate::gathered::{FULL, Gathered};
use crate::texts::Texts;
use afr_text::{Sink, WriteFault, write_all};
use itoa::Buffer;

/// Writes a gathered trace. It takes no memory, so that it fails by the sink's fault alone.
pub fn write_trace<K: Sink>(gathered: Gathered, sink: &mut K) -> Result<(), WriteFault>
    ensures ok { OnOk result (Appends (K.taken sink.old) (K.taken sink.new) gathered) }
    ensures err { OnErr result (AppendsFront (K.taken sink.old) (K.taken sink.new) gathered) }
    ensures cause { HasCause (K.faults sink.old) (K.faults sink.new) result }
{
    let Gathered {
        texts,
        askers,
        rests,
        mut buffer,
    } = gathered;
    write_rows(
        &texts,
        askers.as_slice(),
        rests.as_slice(),
        &mut buffer,
        sink,
    )
}

/// Writes all rows, in pieces of what fills the buffer.
fn write_rows<K: Sink>(
    texts: &Texts,
    askers: &[u8],
    rests: &[u32],
    buffer: &mut Vec<u8>,
    sink: &mut K,
) -> Result<(), WriteFault>
    requires rows { AreRows texts.now askers.now rests.now }
    requires room { HasRoom texts.now (vec_capacity buffer.old) }
    requires empty { buffer.old.items ≡ [] }
    ensures ok { OnOk result (Appends (K.taken sink.old) (K.taken sink.new) (text_to texts.now askers.now rests.now (length rests.now))) }
    ensures err { OnErr result (AppendsFront (K.taken sink.old) (K.taken sink.new) (text_to texts.now askers.now rests.now (length rests.now))) }
    ensures cause { HasCause (K.faults sink.old) (K.faults sink.new) result }
{
    for position in 0..rests.len() {
        let asker = texts.get(askers[position] as usize);
        let rest = texts.get(rests[position] as usize);
        put_row(buffer, position, asker, rest);
        hand_on(sink, buffer)?;
    }
    write_all(sink, buffer.as_slice())?;
    Ok(())
}

/// Writes what the buffer holds, if that fills it.
fn hand_on<K: Sink>(sink: &mut K, buffer: &mut Vec<u8>) -> Result<(), WriteFault>
    ensures ok { OnOk result (HandsOn (K.taken sink.old) (K.taken sink.new) buffer.old.items buffer.new.items) }
    ensures few { OnOk result (vec_len buffer.new < 65536) }
    ensures room { vec_capacity buffer.new ≡ vec_capacity buffer.old }
    ensures err { OnErr result (AppendsFront (K.taken sink.old) (K.taken sink.new) buffer.old.items) }
    ensures cause { HasCause (K.faults sink.old) (K.faults sink.new) result }
{
    if buffer.len() < FULL {
        return Ok(());
    }
    write_all(sink, buffer.as_slice())?;
    buffer.clear();
    Ok(())
}

/// Puts a row into the buffer.
fn put_row(buffer: &mut Vec<u8>, position: usize, asker: &[u8], rest: &[u8])
    requires few { vec_len buffer.old < 65536 }
    requires room { 65576 + length asker.now + length rest.now ≤ vec_capacity buffer.old }
    ensures items { buffer.new.items ≡ buffer.old.items ++ (decimal position ++ (asker.now ++ rest.now)) }
    ensures room { vec_capacity buffer.old ≤ vec_capacity buffer.new }
{
    let mut digits = Buffer::new();
    put(buffer, digits.format(position).as_bytes());
    put(buffer, asker);
    put(buffer, rest);
}

fn put(buffer: &mut Vec<u8>, piece: &[u8])
    requires { vec_len buffer.old + length piece.now ≤ vec_capacity buffer.old }
    ensures items { buffer.new.items ≡ buffer.old.items ++ piece.now }
    ensures len { vec_len buffer.new ≡ vec_len buffer.old + length piece.now }
    ensures room { vec_capacity buffer.old ≤ vec_capacity buffer.new }
{
    match buffer.extend_from_slice(piece) {
        Ok(()) => (),
        Err(_) => unreachable!(),
    }
}
