//! Reading a source to its end within a limit, and writing all of some bytes.
ghost use Rattle.std.specs.Prelude.{◌≡◌, ◌≤◌, length, IfOk, OnOk, OnErr};
ghost use Rattle.std.specs.Io.KnownBytes.{Appends, Consumes, IsAtEnd};
ghost use Rattle.afr_text.specs.Causes.{Rose, HasCause};
ghost use Rattle.afr_text.specs.Parts.{AppendsFront, CameMore, CameSome};

use crate::outside::{Failed, Sink, Source};
use std::alloc::Global;

/// Why the bytes of a source were not handed over.
#[derive(Clone, Copy, Debug, PartialEq, Eq)]
pub enum ReadStop {
    /// A read failed.
    ReadFault,
    /// More bytes came than the limit allows.
    TooLong,
    /// There was no memory for the bytes.
    NoMemory,
}

/// A write failed, so some of the bytes were not written.
#[derive(Clone, Copy, Debug, PartialEq, Eq)]
pub struct WriteFault;

/// Reads all that is still to come, up to a limit. To see that there is too much it reads past the limit,
/// by at most a piece of 4,096 bytes. After an error the bytes that were read are lost.
pub fn read_all<S: Source>(alloc: Global, source: &mut S, limit: usize) -> Result<Vec<u8>, ReadStop>
    ensures ok { IfOk result (λ bytes. Consumes (S.left source.old) (S.left source.new) bytes.items) }
    ensures end { OnOk result (IsAtEnd (S.left source.new)) }
    ensures len { IfOk result (λ bytes. length bytes.items ≤ limit) }
    ensures long { result ≡ Err ReadStop.TooLong → CameMore (S.left source.old) (S.left source.new) limit }
    ensures kept { CameSome (S.left source.old) (S.left source.new) }
    ensures faults { S.faults source.old ≤ S.faults source.new }
    ensures cause { result ≡ Err ReadStop.ReadFault → Rose (S.faults source.old) (S.faults source.new) }
{
    let mut all = Vec::new(alloc);
    let mut piece = [0u8; 4096];
    while all.len() <= limit {
        match source.read(&mut piece) {
            Ok(0) => return Ok(all),
            Ok(count) => {
                if all.extend_from_slice(&piece[..count]).is_err() {
                    return Err(ReadStop::NoMemory);
                }
            }
            Err(Failed) => return Err(ReadStop::ReadFault),
        }
    }
    Err(ReadStop::TooLong)
}

/// Writes all the bytes, in as many pieces as the sink takes them in. It takes no memory.
pub fn write_all<K: Sink>(sink: &mut K, bytes: &[u8]) -> Result<(), WriteFault>
    ensures ok { OnOk result (Appends (K.taken sink.old) (K.taken sink.new) bytes.now) }
    ensures err { OnErr result (AppendsFront (K.taken sink.old) (K.taken sink.new) bytes.now) }
    ensures cause { HasCause (K.faults sink.old) (K.faults sink.new) result }
{
    let mut done = 0;
    while done < bytes.len() {
        match sink.write(&bytes[done..]) {
            Ok(count) => done += count,
            Err(Failed) => return Err(WriteFault),
        }
    }
    Ok(())
}
