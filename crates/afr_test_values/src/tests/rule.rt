//! What a source rule and a read rule pick.
ghost use Rattle.std.specs.Prelude.{◌<◌, length};

use afr_base::BrickId;
use afr_rule::shipped::{first, longest};
use afr_rule::{Candidate, ReadRule, Rules, SourceRule};

fn candidates(bricks: [u8; 3], lens: [u32; 3]) -> [Candidate; 3] {
    let mut from = [Candidate {
        brick: BrickId(0),
        len: 0,
    }; 3];
    for at in 0..3usize {
        from[at] = Candidate {
            brick: BrickId(bricks[at]),
            len: lens[at],
        };
    }
    from
}

#[test]
fn a_heal_takes_the_first_of_the_longest_and_a_read_the_first(rt: HostRuntime) {
    let rules = Rules {
        heal: SourceRule::new(longest),
        read: ReadRule::new(first),
    };
    let rows = [
        ([0, 1, 2], [7, 7, 7], 0, 0),
        ([0, 1, 2], [7, 9, 9], 1, 0),
        ([0, 1, 2], [0, 0, 1], 2, 0),
        ([1, 3, 4], [9, 0, 8], 1, 1),
        ([2, 3, 4], [3, 4, 4], 3, 2),
    ];
    for (bricks, lens, heal, read) in &rows {
        let from = candidates(*bricks, *lens);
        assert_eq!(rt; rules.heal.pick(&from), BrickId(*heal), "at {lens:?}");
        assert_eq!(rt; rules.read.pick(&from), BrickId(*read), "at {lens:?}");
    }
}

#[test]
fn a_rule_picks_what_its_function_chooses(rt: HostRuntime) {
    let from = candidates([0, 2, 3], [5, 6, 4]);
    let wanted = 1usize;
    let last = SourceRule::new(|from: &[Candidate]| from.len() - 1);
    let captured = ReadRule::new(
        move |from: &[Candidate]| -> usize
            requires { 0 < length from.now }
            ensures { result < length from.now }
        { if wanted < from.len() { wanted } else { 0 } },
    );
    assert_eq!(rt; last.pick(&from), BrickId(3));
    assert_eq!(rt; last.pick(&from[..2]), BrickId(2));
    assert_eq!(rt; captured.pick(&from), BrickId(2));
    assert_eq!(rt; captured.pick(&from[..1]), BrickId(0));
}
