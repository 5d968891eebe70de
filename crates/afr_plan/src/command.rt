//! The commands of the clients.
ghost use Rattle.std.specs.Prelude.{◌≡◌, IfOk};

use afr_base::{KeyId, NameId, NoMemory, ValueId};
use afr_object::{Chunk, List, TryCopy};

/// The names from the root to an object; none for the root itself.
pub type NamePath = List<NameId>;

/// The commands of one client, in order.
pub type Script = List<Command>;

/// The scripts of all clients; client 1 has the first.
pub type Scripts = List<Script>;

/// One command of a client.
#[derive(Debug, Drop)]
pub enum Command {
    Write {
        path: NamePath,
        at: u32,
        bytes: Chunk,
    },
    Cut {
        path: NamePath,
        len: u32,
    },
    Read {
        path: NamePath,
        at: u32,
        len: u32,
    },
    Create {
        path: NamePath,
    },
    Mkdir {
        path: NamePath,
    },
    Unlink {
        path: NamePath,
    },
    Rmdir {
        path: NamePath,
    },
    Ls {
        path: NamePath,
    },
    Stat {
        path: NamePath,
    },
    SetAttr {
        path: NamePath,
        key: KeyId,
        value: ValueId,
    },
    GetAttr {
        path: NamePath,
        key: KeyId,
    },
    /// The file at the end of the first path gets the second path's last name instead.
    Rename {
        from: NamePath,
        to: NamePath,
    },
}

impl TryCopy for Command {
    fn copy(&self) -> Result<Command, NoMemory> {
        match self {
            Command::Write { path, at, bytes } => copy_write(path, *at, bytes),
            Command::Cut { path, len } => copy_cut(path, *len),
            Command::Read { path, at, len } => copy_read(path, *at, *len),
            Command::Create { path } => copy_create(path),
            Command::Mkdir { path } => copy_mkdir(path),
            Command::Unlink { path } => copy_unlink(path),
            Command::Rmdir { path } => copy_rmdir(path),
            Command::Ls { path } => copy_ls(path),
            Command::Stat { path } => copy_stat(path),
            Command::SetAttr { path, key, value } => copy_set_attr(path, *key, *value),
            Command::GetAttr { path, key } => copy_get_attr(path, *key),
            Command::Rename { from, to } => copy_rename(from, to),
        }
    }
}

fn copy_write(path: &NamePath, at: u32, bytes: &Chunk) -> Result<Command, NoMemory>
    ensures ok { IfOk result (λ command. command ≡ Command.Write path.now at bytes.now) }
{
    let path = path.copy()?;
    let bytes = bytes.copy()?;
    Ok(Command::Write { path, at, bytes })
}

fn copy_cut(path: &NamePath, len: u32) -> Result<Command, NoMemory>
    ensures ok { IfOk result (λ command. command ≡ Command.Cut path.now len) }
{
    let path = path.copy()?;
    Ok(Command::Cut { path, len })
}

fn copy_read(path: &NamePath, at: u32, len: u32) -> Result<Command, NoMemory>
    ensures ok { IfOk result (λ command. command ≡ Command.Read path.now at len) }
{
    let path = path.copy()?;
    Ok(Command::Read { path, at, len })
}

fn copy_create(path: &NamePath) -> Result<Command, NoMemory>
    ensures ok { IfOk result (λ command. command ≡ Command.Create path.now) }
{
    let path = path.copy()?;
    Ok(Command::Create { path })
}

fn copy_mkdir(path: &NamePath) -> Result<Command, NoMemory>
    ensures ok { IfOk result (λ command. command ≡ Command.Mkdir path.now) }
{
    let path = path.copy()?;
    Ok(Command::Mkdir { path })
}

fn copy_unlink(path: &NamePath) -> Result<Command, NoMemory>
    ensures ok { IfOk result (λ command. command ≡ Command.Unlink path.now) }
{
    let path = path.copy()?;
    Ok(Command::Unlink { path })
}

fn copy_rmdir(path: &NamePath) -> Result<Command, NoMemory>
    ensures ok { IfOk result (λ command. command ≡ Command.Rmdir path.now) }
{
    let path = path.copy()?;
    Ok(Command::Rmdir { path })
}

fn copy_ls(path: &NamePath) -> Result<Command, NoMemory>
    ensures ok { IfOk result (λ command. command ≡ Command.Ls path.now) }
{
    let path = path.copy()?;
    Ok(Command::Ls { path })
}

fn copy_stat(path: &NamePath) -> Result<Command, NoMemory>
    ensures ok { IfOk result (λ command. command ≡ Command.Stat path.now) }
{
    let path = path.copy()?;
    Ok(Command::Stat { path })
}

fn copy_set_attr(path: &NamePath, key: KeyId, value: ValueId) -> Result<Command, NoMemory>
    ensures ok { IfOk result (λ command. command ≡ Command.SetAttr path.now key value) }
{
    let path = path.copy()?;
    Ok(Command::SetAttr { path, key, value })
}

fn copy_get_attr(path: &NamePath, key: KeyId) -> Result<Command, NoMemory>
    ensures ok { IfOk result (λ command. command ≡ Command.GetAttr path.now key) }
{
    let path = path.copy()?;
    Ok(Command::GetAttr { path, key })
}

fn copy_rename(from: &NamePath, to: &NamePath) -> Result<Command, NoMemory>
    ensures ok { IfOk result (λ command. command ≡ Command.Rename from.now to.now) }
{
    let from = from.copy()?;
    let to = to.copy()?;
    Ok(Command::Rename { from, to })
}
