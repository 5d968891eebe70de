//! What threads count: the works that they ended, each once.
ghost use Rattle.std.specs.Prelude.{◌≡◌, ◌≤◌, ◌<◌, ◌+◌, ◌^◌};

use std::marker::Brand;
use std::sync::ledger::{Book, Ledger, Share};

/// Which run it is: its plan, and the ledger of the works that end. Each call picks it, so a volume that comes out from
/// under a lock has the plan that it went in with.
pub trait Run: Ledger {
    ghost use Rattle.afr_plan.specs.declared.plan.Plan.{Plan};

    ghost plan: { Plan };
}

impl Run for Brand {
    ghost use Rattle.afr_model.specs.State.{no_plan};

    ghost plan = { no_plan };
}

/// A number of works that ended, and the share of the ledger that says so.
#[derive(Drop)]
pub struct EndedWorks<J: Run> {
    count: u64,
    pub share: Share<J>,
    ghost counts: { share.amount ≡ count },
}

/// What one thread hands back: it has one part of the ledger.
#[derive(Drop)]
pub struct Handed<J: Run> {
    tally: EndedWorks<J>,
    ghost one_part: { tally.share.parts ≡ 1 },
}

impl<J: Run> Handed<J> {
    pub fn new(tally: EndedWorks<J>) -> Handed<J>
        requires one { tally.share.parts ≡ 1 }
    {
        Handed { tally }
    }
}

impl<J: Run> EndedWorks<J> {
    /// Nothing counted yet.
    pub fn new(share: Share<J>) -> EndedWorks<J>
        requires none { share.amount ≡ 0 }
        ensures { result.share.parts ≡ share.parts }
    {
        EndedWorks { count: 0, share }
    }

    /// A tally of its own for a thread, of one part and nothing counted.
    pub fn split(&mut self) -> EndedWorks<J>
        requires more { 1 < self.old.share.parts }
        ensures one { result.share.parts ≡ 1 }
        ensures left { self.new.share.parts + 1 ≡ self.old.share.parts }
    {
        EndedWorks::new(self.share.split_off(1, 0))
    }

    /// Counts one work that ended, here and in the book.
    pub fn add(&mut self, book: &mut Book<J>)
        requires backed { 0 < self.old.share.parts }
        requires few { book.old.total < 2 ^ 32 }
        ensures parts { self.new.share.parts ≡ self.old.share.parts }
        ensures total { book.new.total ≡ book.old.total + 1 }
    {
        book.add(&mut self.share, 1);
        book.audit(&mut self.share);
        self.count += 1;
    }

    /// Takes over what a thread has counted.
    pub fn gather(&mut self, book: &mut Book<J>, handed: Handed<J>)
        requires few { book.old.total < 2 ^ 32 }
        ensures parts { self.new.share.parts ≡ self.old.share.parts + 1 }
        ensures total { book.new.total ≡ book.old.total }
    {
        let Handed { tally } = handed;
        let EndedWorks { count, share } = tally;
        self.share.merge(share);
        book.audit(&mut self.share);
        self.count += count;
    }

    /// All that was counted, where every part of the ledger is here.
    pub fn sum(&mut self, book: &mut Book<J>) -> u64
        requires { self.old.share.parts ≡ J.parts }
        ensures sum { result ≡ book.new.total }
        ensures total { book.new.total ≡ book.old.total }
    {
        book.audit(&mut self.share);
        self.count
    }
}
