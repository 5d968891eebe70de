//! A crawl: the first healer asks for the indexes of its rounds alone, and the others, the workers, are given tasks.
ghost use Rattle.std.specs.Prelude.{◌≡◌, ◌-◌, [], None, OnErr, OnOk, Some, false, option_map, slice_get, slice_set, true};
ghost use Rattle.afr_lines.specs.Work.{is_killed};
ghost use Rattle.afr_model.specs.Crawl.{CanCrawl, IsGiven, IsWorker, list_at, lists_by};
ghost use Rattle.afr_volume.specs.State.{no_tasks};

use crate::healers::{give_task, rest_first};
use crate::laws::laws;
use crate::volume::Volume;
use afr_base::{ActorId, Gfid, NoMemory, What};
use afr_object::IndexList;

impl Volume {
    /// From here on the healers crawl.
    pub fn set_crawl(&mut self)
        requires none { self.old.log ≡ [] }
        requires healers { CanCrawl self.old.plan }
        ensures { self.new ≡ record self.old { crawl = true; tasks = no_tasks true } }
    {
        // A turn that wanted memory may have left a round that heals, of which no line was written.
        rest_first(&mut self.healers);
        self.crawl = true;
        self.lists = Vec::new(self.alloc);
    }

    /// Whether the healers crawl. It takes no memory.
    pub fn is_crawl(&self) -> bool
        ensures { result ≡ self.now.crawl }
    {
        self.crawl
    }

    /// Gives a worker one task, an item that the crawler was given. Its turns are the lines of it.
    pub fn assign(&mut self, a: ActorId, gfid: Gfid, what: What) -> Result<(), NoMemory>
        requires crawl { self.old.crawl ≡ true }
        requires worker { IsWorker a.0 }
        requires alive { is_killed a.0 self.old.log ≡ false }
        requires idle { slice_get self.old.tasks (a.0 - 18) ≡ Some None }
        requires given { IsGiven self.old.plan (gfid, what) self.old.log }
        ensures ok { OnOk result (self.new ≡ record self.old { tasks = slice_set self.old.tasks (a.0 - 18) (Some (gfid, what)) }) }
        ensures err { OnErr result (self.new ≡ self.old) }
    {
        laws();
        give_task(
            self.alloc,
            self.plan.shape,
            a,
            gfid,
            what,
            &mut self.healers,
        )?;
        Ok(())
    }
    /// The list that a round of the crawler was given, counted from 0; none where that round hasn't ended, or was given none. It
    /// takes no memory.
    pub fn crawled(&self, round: u32) -> Option<&IndexList>
        requires crawl { self.now.crawl ≡ true }
        ensures { option_map (λ list. list.now) result ≡ list_at round (lists_by self.now.plan self.now.log) }
    {
        if round >= self.healers[0].ended {
            return None;
        }
        self.lists[round as usize].as_ref()
    }
}
