//! An event comes to the bricks.
ghost use Rattle.std.specs.Prelude.{◌≤◌, length};
ghost use Rattle.afr_server.specs.Happening.{HasLink};
ghost use Rattle.afr_servers.specs.Calls.{MeetsEach};

use afr_base::BrickId;
use afr_lines::Event;
use afr_server::Server;

/// The event comes to each brick. It takes no memory.
pub(crate) fn each_event(servers: &mut Vec<Server>, event: &Event)
    requires few { length servers.old.items ≤ 5 }
    requires link { HasLink event.now }
    ensures { MeetsEach event.now servers.old.items servers.new.items }
{
    for b in 0..servers.len() {
        servers[b].event(event, BrickId(b as u8));
    }
}
