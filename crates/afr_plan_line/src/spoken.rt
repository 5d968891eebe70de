//! What one line of a plan says by itself, its words lying where the line does.
use afr_base::Shape;
use afr_lines::Fault;
use afr_plan::Version;

/// A piece of data, by its form.
#[derive(Clone, Copy, Drop)]
pub enum SpokenData<'a> {
    Text(&'a [u8]),
    /// Pairs of hexadecimal digits.
    Hex(&'a [u8]),
    /// So many bytes of one value.
    Fill(u32, u8),
}

/// What a command does to the object of its path.
#[derive(Clone, Copy, Drop)]
pub enum SpokenAction<'a> {
    Write { at: u32, data: SpokenData<'a> },
    Cut { len: u32 },
    Read { at: u32, len: u32 },
    Create,
    Mkdir,
    Unlink,
    Rmdir,
    Ls,
    Stat,
    SetAttr { key: &'a [u8], value: &'a [u8] },
    GetAttr { key: &'a [u8] },
    /// The second path.
    Rename { to: &'a [u8] },
}

/// An actor, by its kind and number.
#[derive(Clone, Copy, Drop)]
pub enum SpokenWho {
    OfClient(u8),
    OfHealer(u8),
}

/// An event, by the numbers of its bricks.
#[derive(Clone, Copy, Drop)]
pub enum SpokenEvent {
    Stop(u8),
    Start(u8),
    Cut(SpokenWho, u8),
    Join(SpokenWho, u8),
    Kill(SpokenWho),
}

/// What a line says.
#[derive(Clone, Copy, Drop)]
pub enum Spoken<'a> {
    Afr(Version),
    /// The version that it is spelled in, and the shape.
    Volume(Version, Shape),
    Files(u32),
    Turns(u32),
    Client(u32),
    Command {
        path: &'a [u8],
        action: SpokenAction<'a>,
    },
    Healer(u32),
    Round(u8),
    Faulty {
        brick: u8,
        at: u32,
        fault: Fault,
    },
    At {
        at: u32,
        event: SpokenEvent,
    },
    Go {
        who: SpokenWho,
        count: u32,
    },
    End,
}
