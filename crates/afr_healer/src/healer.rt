//! A healer: its present round, and the sessions that it works over.
ghost use Rattle.afr_healer.specs.Acting.{IsNewHealer};

use afr_heal_round::RoundMachine;
use afr_servers::Visit;

/// A healer of a volume.
#[derive(Drop)]
pub struct Healer {
    /// How many rounds have ended.
    pub ended: u32,
    pub killed: bool,
    /// The sessions of the present heal.
    pub visit: Visit,
    pub round: Option<RoundMachine>,
}

impl Healer {
    /// A healer that has begun nothing.
    pub fn new() -> Healer
        ensures { IsNewHealer result }
    {
        Healer {
            ended: 0,
            killed: false,
            visit: Visit::new(),
            round: None,
        }
    }
}
