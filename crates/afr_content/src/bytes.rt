//! Writing, clearing and reading a range of a list of bytes, and what each byte becomes.
ghost use Rattle.std.specs.Prelude.{◌≡◌, ℕ, List, ◌+◌, ◌-◌, ◌<◌, ◌≤◌, ◌/◌, length, take, nat_lt, slice_index, if◌then◌else◌, vec_capacity};
ghost use Rattle.afr_object.specs.Bytes.{written, zeroed, copied_in, byte_at, is_within};

/// Writes the bytes at an offset, over a gap of zeros where the offset is past the end. There has to
/// be memory for them.
pub(crate) fn put(old: &mut Vec<u8>, at: usize, bytes: &[u8])
    requires { at + length bytes.now ≤ vec_capacity old.old }
    ensures bytes { old.new.items ≡ written at bytes.now old.old.items }
    ensures room { vec_capacity old.old ≤ vec_capacity old.new }
{
    if bytes.is_empty() {
        return;
    }
    let end = at + bytes.len();
    if end > old.len() {
        match old.resize(end, 0) {
            Ok(()) => {}
            Err(_) => unreachable!(),
        }
    }
    old[at..end].copy_from_slice(bytes);
}

/// Makes the present bytes from one offset up to another zero.
pub(crate) fn zero(bytes: &mut [u8], from: usize, to: usize)
    requires { from ≤ to }
    ensures { bytes.new ≡ zeroed from to bytes.old }
{
    let end = to.min(bytes.len());
    if from < end {
        bytes[from..end].fill(0);
    }
}

/// Copies the bytes from an offset on into all of `into`, and zeros where there are no more.
pub(crate) fn show(bytes: &[u8], at: usize, into: &mut [u8])
    ensures len { length into.new ≡ length into.old }
    ensures bytes { (k : ℕ) → k < length into.old → slice_index into.new k ≡ byte_at (at + k) bytes.now }
{
    if at >= bytes.len() {
        into.fill(0);
        return;
    }
    let count = into.len().min(bytes.len() - at);
    into[..count].copy_from_slice(&bytes[at..at + count]);
    into[count..].fill(0);
}

/// What each byte of a file is after a call, by what the file and the call's bytes were before it.
pub fn bytes_after_a_call()
    ensures written { (i at : ℕ) (bytes old : List ℕ) → byte_at i (written at bytes old) ≡ if is_within at (length bytes) i then byte_at (i - at) bytes else byte_at i old }
    ensures cut { (i len : ℕ) (old : List ℕ) → byte_at i (take len old) ≡ if nat_lt i len then byte_at i old else 0 }
    ensures copied_in { (i at span : ℕ) (bytes old : List ℕ) → byte_at i (copied_in at span bytes old) ≡ if is_within at (length bytes) i then byte_at (i - at) bytes else if is_within at span i then 0 else byte_at i old }
{}
