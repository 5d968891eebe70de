//! The faults that are planned for the requests to one brick, by their count.
ghost use Rattle.std.specs.Prelude.{◌≡◌, ◌+◌, ◌-◌, ◌^◌, ◌<◌, [], OnOk, OnErr};
ghost use Rattle.std.specs.BTreeMap.{insert_entry};
ghost use Rattle.std.specs.Ordering.{nat_cmp};
ghost use Rattle.afr_faults.specs.Planned.{Plans, next_fault};

use afr_base::NoMemory;
use afr_lines::Fault;
use std::alloc::Global;
use std::collections::BTreeMap;
use std::marker::Model;

/// Counts the requests to a brick, refused ones included, and knows which of them have a fault.
/// Each call takes O(log n) steps on n planned faults.
#[derive(Drop)]
pub struct FaultPlan {
    requests: u32,
    faults: BTreeMap<u64, Fault>,
    /// The fault of the next request, so that only a count looks it up.
    next: Option<Fault>,
}

impl Model for FaultPlan {
    ghost use Rattle.std.specs.Prelude.{◌≡◌};
    ghost use Rattle.afr_faults.specs.Planned.{Planned, next_fault};

    ghost Value = { Planned };

    ghost view = { λ p. record { requests = p.requests; faults = p.faults.entries } };

    ghost invariant = { λ p. p.next ≡ next_fault (record { requests = p.requests; faults = p.faults.entries }) };
}

impl FaultPlan {
    /// No request came, and none is to fail.
    pub fn new(alloc: Global) -> FaultPlan
        ensures { result ≡ record { requests = 0; faults = [] } }
    {
        FaultPlan {
            requests: 0,
            faults: BTreeMap::new(alloc),
            next: None,
        }
    }

    /// Plans a fault for the request of this count. A fault that was planned for it is replaced; one
    /// for a count that is past, or for 0, never comes.
    pub fn add(&mut self, at: u32, fault: Fault) -> Result<(), NoMemory>
        ensures plans { OnOk result (Plans self.old self.new at fault) }
        ensures ok { OnOk result (self.new ≡ record self.old { faults = insert_entry nat_cmp self.old.faults at fault }) }
        ensures err { OnErr result (self.new ≡ self.old) }
    {
        self.faults.insert(u64::from(at), fault)?;
        self.next = fault_after(&self.faults, self.requests);
        Ok(())
    }

    /// What `next_request` would answer.
    pub fn peek(&self) -> Option<Fault>
        ensures { result ≡ next_fault self.now }
    {
        self.next
    }

    /// Counts one more request, and gives its fault.
    pub fn next_request(&mut self) -> Option<Fault>
        requires { self.old.requests < 2 ^ 32 - 1 }
        ensures fault { result ≡ next_fault self.old }
        ensures counted { self.new ≡ record self.old { requests = self.old.requests + 1 } }
    {
        let fault = self.next;
        self.requests += 1;
        self.next = fault_after(&self.faults, self.requests);
        fault
    }
}

/// The fault of the request after so many.
fn fault_after(faults: &BTreeMap<u64, Fault>, requests: u32) -> Option<Fault>
    ensures { result ≡ next_fault (record { requests = requests; faults = faults.now.entries }) }
{
    faults.get(&(u64::from(requests) + 1)).copied()
}
