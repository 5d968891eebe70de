//! What some of the bricks show of an object.
ghost use Rattle.std.specs.Prelude.{◌≡◌, ◌<◌};
ghost use Rattle.afr_model.specs.HealReplies.{is_clean};
ghost use Rattle.afr_report_info.specs.Shown.{is_marked_at, shown, view_shown};

use afr_base::{BrickId, BrickSet, Gfid, Kind};
use afr_choice::Looked;
use afr_object::View;
use afr_server::Server;

/// What looks at these bricks would show, in O(log n) for n objects of a brick.
pub fn look(servers: &[Server], among: BrickSet, gfid: Gfid) -> Looked
    ensures { result ≡ shown servers.now among gfid }
{
    Looked {
        reached: among,
        views: [
            view(servers, among, gfid, BrickId(0)),
            view(servers, among, gfid, BrickId(1)),
            view(servers, among, gfid, BrickId(2)),
            view(servers, among, gfid, BrickId(3)),
            view(servers, among, gfid, BrickId(4)),
        ],
    }
}

fn view(servers: &[Server], among: BrickSet, gfid: Gfid, brick: BrickId) -> Option<View>
    requires { brick.0 < 5 }
    ensures { result ≡ view_shown servers.now among gfid brick.0 }
{
    if !among.has(brick) {
        return None;
    }
    match servers.get(brick.0 as usize) {
        Some(server) => server.brick().look(gfid),
        None => None,
    }
}

/// Whether all numbers of the kind are 0 at the bricks that have the object.
pub fn is_clean(kind: Kind, looked: &Looked) -> bool
    ensures { result ≡ is_clean kind looked.now }
{
    for brick in 0..5u8 {
        if is_marked(kind, looked, BrickId(brick)) {
            return false;
        }
    }
    true
}

fn is_marked(kind: Kind, looked: &Looked, brick: BrickId) -> bool
    requires { brick.0 < 5 }
    ensures { result ≡ is_marked_at kind looked.now brick.0 }
{
    if !looked.reached.has(brick) {
        return false;
    }
    match looked.views[brick.0 as usize] {
        Some(view) => !view.marks.of(kind).is_zero(),
        None => false,
    }
}
