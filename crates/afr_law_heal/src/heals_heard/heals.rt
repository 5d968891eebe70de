//! A heal and the log: what its bricks tell it, and that it carries what its reads showed.
ghost use Rattle.afr_law_heal.specs.Heard.Hears.{HealHears, IndexIsListed};
ghost use Rattle.afr_law_heal.specs.Heard.Holds.{HealBrings, HoldsBegun, HoldsMore, HoldsNone, HoldsOther, HoldsReady};

/// Where answers are honest and moves are lawful, a heal hears what a brick may answer it; it holds what its reads showed,
/// whatever lines come between, and that is what goes with its repairs. An index lists what the log has there.
pub fn a_heal_hears_what_it_asked()
    ensures hears { HealHears }
    ensures index { IndexIsListed }
    ensures none { HoldsNone }
    ensures more { HoldsMore }
    ensures begun { HoldsBegun }
    ensures ready { HoldsReady }
    ensures other { HoldsOther }
    ensures brings { HealBrings }
{}
