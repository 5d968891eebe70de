//! The next item that no worker was given.
ghost use Rattle.std.specs.Prelude.{◌≡◌, ◌+◌, ◌<◌, ◌≤◌, ◌^◌, IfSome, None, length, true};
ghost use Rattle.afr_model.specs.Crawl.{list_at, lists_by};
ghost use Rattle.afr_workers.specs.Cursor.{ComesNext, IsLast, IsThere, items_in};

use afr_base::{Gfid, What};
use afr_volume::Volume;

/// An item, and its place: the crawler's round, and how many items of that round's list come before it.
#[derive(Clone, Copy)]
pub(crate) struct Next {
    pub(crate) round: u32,
    pub(crate) at: usize,
    pub(crate) gfid: Gfid,
    pub(crate) what: What,
}

/// The item that comes next from this place on, of a round's list, if the crawler was given one. Rounds whose lists have no
/// item there are passed over.
pub(crate) fn next_item(volume: &Volume, from_round: u32, from_at: usize) -> Option<Next>
    requires { volume.now.crawl ≡ true }
    ensures some { IfSome result (λ next. ComesNext (lists_by volume.now.plan volume.now.log) from_round from_at next.round next.at (next.gfid, next.what)) }
    ensures room { IfSome result (λ next. next.at + 1 < 2 ^ 64) }
    ensures none { result ≡ None → IsLast (lists_by volume.now.plan volume.now.log) from_round from_at }
{
    volume.every_line();
    let rounds = volume.plan().healers.item(0).len();
    let mut at = from_at;
    for round in from_round..volume.len() {
        if round as usize >= rounds {
            return None;
        }
        match item_at(volume, round, at) {
            Some((gfid, what)) => {
                return Some(Next {
                    round,
                    at,
                    gfid,
                    what,
                });
            }
            None => at = 0,
        }
    }
    None
}

/// The item at a place of a round's list.
fn item_at(volume: &Volume, round: u32, at: usize) -> Option<(Gfid, What)>
    requires { volume.now.crawl ≡ true }
    ensures some { IfSome result (λ item. IsThere (lists_by volume.now.plan volume.now.log) round at item) }
    ensures room { IfSome result (λ item. at + 1 < 2 ^ 64) }
    ensures none { result ≡ None → length (items_in (list_at round (lists_by volume.now.plan volume.now.log))) ≤ at }
{
    let list = volume.crawled(round)?;
    if at < list.len() {
        Some(*list.item(at))
    } else {
        None
    }
}
