//! What the outside does to a server: it stops and starts, links go down and come back, actors are killed.
ghost use Rattle.std.specs.Prelude.{◌≡◌, ◌<◌, [], false};
ghost use Rattle.afr_server.specs.Happening.{HasLink, IsAlready, Meets};
ghost use Rattle.afr_session.specs.Calls.{Does};
ghost use Rattle.afr_session.specs.Links.{link_of};
ghost use Rattle.afr_session.specs.Calls.Call.{Cut, End, Stop};
ghost use Rattle.afr_lines.specs.Locks.{without_owner};

use crate::server::Server;
use afr_base::{ActorId, BrickId};
use afr_lines::Event;
use afr_name_locks::NameLocks;
use afr_range_locks::RangeLocks;

impl Server {
    /// An event comes to brick `me`. Each session that it ends takes its locks along; what is so
    /// already stays as it is. It takes no memory, and O(n) steps on n actors and locks.
    pub fn event(&mut self, event: &Event, me: BrickId)
        requires { HasLink event.now }
        ensures meets { Meets event.now me.0 self.old self.new }
        ensures same { IsAlready event.now me.0 self.old → self.new ≡ self.old }
    {
        match event {
            Event::Stop(brick) => {
                if brick.0 == me.0 {
                    self.stop();
                }
            }
            Event::Start(brick) => {
                if brick.0 == me.0 {
                    self.sessions.start();
                }
            }
            Event::Cut(actor, brick) => {
                if brick.0 == me.0 {
                    self.cut(*actor);
                }
            }
            Event::Join(actor, brick) => {
                if brick.0 == me.0 {
                    self.sessions.join(*actor);
                }
            }
            Event::Kill(actor) => self.end(*actor),
        }
    }

    fn stop(&mut self)
        ensures same { self.new ≡ record self.old { links = self.new.links; ranges = []; names = [] } }
        ensures links { Does Stop self.old.links self.new.links }
        ensures already { self.old.links.started ≡ false → self.new ≡ self.old }
    {
        self.sessions.stop();
        self.ranges = RangeLocks::new(self.alloc);
        self.names = NameLocks::new(self.alloc);
    }

    /// The actor's session ends, and its locks go.
    pub(crate) fn end(&mut self, actor: ActorId)
        requires { actor.0 < 20 }
        ensures same { self.new ≡ record self.old { links = self.new.links; ranges = without_owner actor self.old.ranges; names = without_owner actor self.old.names } }
        ensures links { Does (End actor.0) self.old.links self.new.links }
        ensures already { (link_of actor.0 self.old.links).live ≡ false → self.new ≡ self.old }
    {
        self.sessions.end(actor);
        self.ranges.drop_owner(actor);
        self.names.drop_owner(actor);
    }

    fn cut(&mut self, actor: ActorId)
        requires { actor.0 < 20 }
        ensures same { self.new ≡ record self.old { links = self.new.links; ranges = without_owner actor self.old.ranges; names = without_owner actor self.old.names } }
        ensures links { Does (Cut actor.0) self.old.links self.new.links }
        ensures already { (link_of actor.0 self.old.links).up ≡ false → self.new ≡ self.old }
    {
        self.sessions.cut(actor);
        self.ranges.drop_owner(actor);
        self.names.drop_owner(actor);
    }
}
