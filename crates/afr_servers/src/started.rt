//! Which bricks are started.
ghost use Rattle.std.specs.Prelude.{◌≡◌, ◌≤◌, length};
ghost use Rattle.afr_servers.specs.Started.{started_in};

use afr_base::{BrickId, BrickSet};
use afr_server::Server;

/// The bricks whose servers are started.
pub(crate) fn started_among(servers: &[Server]) -> BrickSet
    requires { length servers.now ≤ 5 }
    ensures { result ≡ started_in servers.now }
{
    let mut started = BrickSet::none();
    for b in 0..servers.len() {
        started = started.with_if(servers[b].is_up(), BrickId(b as u8));
    }
    started
}
