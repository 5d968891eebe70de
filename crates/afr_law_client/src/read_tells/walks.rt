//! A walk and the lines of its work, for every command whose whole path is walked.
ghost use Rattle.afr_law_client.specs.Read.WalkLaws.{ReadsTouchNothing, WalkAbout, WalkArrives, WalkBegins, WalkStops, WalkTellsMore};

/// The lines of a work show where its walk stands, whatever the bricks answer. A walk that stops ends its command; one that
/// arrives leaves a work that has touched nothing to the read or the transaction that follows.
pub fn a_walk_tells_its_lines()
    ensures begins { WalkBegins }
    ensures more { WalkTellsMore }
    ensures about { WalkAbout }
    ensures stops { WalkStops }
    ensures arrives { WalkArrives }
    ensures untouched { ReadsTouchNothing }
{}
