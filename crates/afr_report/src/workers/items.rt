//! How many items the lists of a crawl have.
ghost use Rattle.std.specs.Prelude.{◌≡◌, ◌<◌, ◌^◌, true};
ghost use Rattle.afr_lines.specs.Work.{ended};
ghost use Rattle.afr_model.specs.Crawl.{list_at, lists_by};
ghost use Rattle.afr_report.specs.Workers.{items_given, length_of};

use afr_volume::Volume;

/// The items of the lists that the crawler's ended rounds were given. There are so many such rounds.
pub fn items_given(volume: &Volume, rounds: u32) -> u128
    requires crawl { volume.now.crawl ≡ true }
    requires rounds { rounds ≡ ended 17 volume.now.log }
    ensures { result ≡ items_given volume.now.plan volume.now.log }
{
    let mut items = 0;
    for round in 0..rounds {
        items += listed(volume, round) as u128;
    }
    items
}

/// The items of one round's list; none where it was given none.
fn listed(volume: &Volume, round: u32) -> usize
    requires crawl { volume.now.crawl ≡ true }
    ensures value { result ≡ length_of (list_at round (lists_by volume.now.plan volume.now.log)) }
    ensures few { result < 2 ^ 64 }
{
    match volume.crawled(round) {
        Some(list) => list.len(),
        None => 0,
    }
}
