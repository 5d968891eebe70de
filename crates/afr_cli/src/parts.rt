//! Where the plan ends in a source that has a trace too.
ghost use Rattle.std.specs.Prelude.{◌≡◌, ◌<◌, ◌≤◌, length};
ghost use Rattle.afr_cli.specs.Parts.{IsPlanPart, begins_line, is_end_at};

/// The line that ends a plan.
const END: &[u8] = b"end\n";

/// How many bytes the plan part has: up to and with the first line that is exactly `end`, or all where there is none.
pub fn plan_len(bytes: &[u8]) -> usize
    ensures part { IsPlanPart bytes.now result }
    ensures room { result ≤ length bytes.now }
{
    for at in 0..bytes.len() {
        if is_end_at(bytes, at) {
            return at + END.len();
        }
    }
    bytes.len()
}

/// Whether the line that begins here is exactly `end`.
fn is_end_at(bytes: &[u8], at: usize) -> bool
    requires { at < length bytes.now }
    ensures { result ≡ is_end_at bytes.now at }
{
    begins_line(bytes, at) && bytes[at..].starts_with(END)
}

fn begins_line(bytes: &[u8], at: usize) -> bool
    requires { at < length bytes.now }
    ensures { result ≡ begins_line bytes.now at }
{
    at == 0 || bytes[at - 1] == b'\n'
}
