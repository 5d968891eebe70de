//! The commands of a generated load: a number is drawn for each, and decides what it is.
ghost use Rattle.std.specs.Prelude.{◌≡◌, ◌+◌, ◌*◌, ◌≤◌, IfOk, replicate};
ghost use Rattle.afr_gen.specs.Generated as specs;

use afr_base::{KeyId, NameId, NoMemory, ValueId};
use afr_object::{Chunk, List, TryCopy};
use afr_plan::{Command, NamePath, Script};
use std::alloc::Global;

/// The bytes of a read and of a write.
const BLOCK: u32 = 1024;

/// What a client's commands came to.
#[derive(Drop)]
pub struct Drawn {
    pub script: Script,
    /// Whether one of them sets an attribute.
    pub has_set: bool,
    /// The number drawn for the last.
    pub last: u32,
}

/// The number that comes after another: a linear congruence.
fn next(x: u32) -> u32
    ensures { result ≡ specs.next x }
{
    ((u64::from(x) * 1_103_515_245 + 12_345) % 2_147_483_648) as u32
}

/// The `n` commands of the client that comes after `before` others, where `from` is the number drawn last. Its own value
/// stands at the place `value`.
pub fn draw_script(
    alloc: Global,
    n: u32,
    before: u8,
    value: u32,
    from: u32,
) -> Result<Drawn, NoMemory>
    requires few { before ≤ 3 }
    requires from { from ≡ specs.drawn n (before * n) }
    ensures script { IfOk result (λ drawn. drawn.script ≡ specs.script n before value n) }
    ensures has_set { IfOk result (λ drawn. drawn.has_set ≡ specs.has_set n before n) }
    ensures last { IfOk result (λ drawn. drawn.last ≡ specs.drawn n (before * n + n)) }
{
    // All writes of a client share their bytes.
    let block = block(alloc, before + 1)?;
    let mut script = List::new(alloc);
    let mut has_set = false;
    let mut last = from;
    for k in 0..n {
        let _ = k;
        last = next(last);
        let lot = last / 65_536;
        script.push(command(alloc, before + 1, &block, value, lot)?)?;
        has_set = has_set || sets(lot);
    }
    Ok(Drawn {
        script,
        has_set,
        last,
    })
}

fn sets(lot: u32) -> bool
    ensures { result ≡ specs.sets lot }
{
    lot % 4 == 2
}

/// The command of a client at a lot: the low two bits say which, the next three the file, the next four the place in it.
fn command(
    alloc: Global,
    _client: u8,
    block: &Chunk,
    value: u32,
    lot: u32,
) -> Result<Command, NoMemory>
    requires block { block.now ≡ specs.block _client }
    ensures ok { IfOk result (λ command. command ≡ specs.command _client value lot) }
{
    let path = make_path(alloc, lot)?;
    let at = lot / 32 % 16 * BLOCK;
    if sets(lot) {
        Ok(Command::SetAttr {
            path,
            key: KeyId(0),
            value: ValueId(value),
        })
    } else if lot % 4 == 1 {
        Ok(Command::Read {
            path,
            at,
            len: BLOCK,
        })
    } else {
        let bytes = block.copy()?;
        Ok(Command::Write { path, at, bytes })
    }
}

fn make_path(alloc: Global, lot: u32) -> Result<NamePath, NoMemory>
    ensures ok { IfOk result (λ path. path ≡ specs.path lot) }
{
    let mut path = List::new(alloc);
    path.push(NameId(lot / 4 % 8))?;
    Ok(path)
}

/// What a client writes: `a` for the first, `b` for the second, and so on.
#[tactic(auto, unfolding(crate::specs::Generated::block))]
fn block(alloc: Global, client: u8) -> Result<Chunk, NoMemory>
    requires few { client ≤ 4 }
    ensures ok { IfOk result (λ bytes. bytes ≡ specs.block client) }
{
    filled(alloc, BLOCK, 96 + client)
}

fn filled(alloc: Global, count: u32, byte: u8) -> Result<Chunk, NoMemory>
    ensures ok { IfOk result (λ bytes. bytes ≡ replicate count byte) }
{
    let mut bytes = Vec::new(alloc);
    bytes.resize(count as usize, byte)?;
    Chunk::from_vec(bytes)
}
