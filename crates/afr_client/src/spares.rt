//! Machines that have ended, in whose places on the heap the next ones begin.

use crate::on_heap::OnHeap;
use crate::work::WorkMachine;
use afr_client_read::LookupMachine;
use afr_client_write::WriteMachine;

/// At most one machine of each kind that most commands have. It says nothing of the next work but where it lies.
#[derive(Drop)]
pub(crate) struct Spares {
    pub lookup: Option<OnHeap<LookupMachine>>,
    pub write: Option<OnHeap<WriteMachine>>,
}

impl Spares {
    pub fn none() -> Spares {
        Spares {
            lookup: None,
            write: None,
        }
    }

    /// A machine that has ended.
    pub fn keep(&mut self, ended: WorkMachine) {
        match ended {
            WorkMachine::Lookup(machine) => self.lookup = Some(machine),
            WorkMachine::Write(machine) => self.write = Some(machine),
            _ => {}
        }
    }
}
