//! What the program ends with.

/// The status of the program. A plan that was run to its end gives `Done`, one whose log was full
/// before all work was done `Unfinished`. A trace that was checked gives `Done` where it is right, and `Breaks` where
/// it isn't. The others name what kept a plan or an image from its report, or a trace from its check.
pub enum Status {
    Done = 0,
    Usage = 2,
    Refused = 3,
    ReadFault = 4,
    WriteFault = 5,
    NoMemory = 6,
    Unfinished = 7,
    CrawlRefused = 8,
    ImageRefused = 9,
    Differs = 10,
    Breaks = 11,
    PastLimit = 12,
}
