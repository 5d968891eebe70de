//! The law of availability: enough bricks that don't fail make a change succeed.

ghost use Rattle.afr_law_promises.specs.Available.Available.{ModelAnswersBorne, ModelExactIsAvailable};

/// Where the bricks that were asked for a change's pre-op and failed at nothing since its Begin line are a majority with a
/// copy that was good by its looks, its command answers ok, whatever the other bricks did: they may refuse, be stopped, or
/// lose their answers (`exact`). `model` says it of bricks that did what they were asked; that those which have the object
/// and don't fail do it, is what an honest and lawful log adds. `IsAnswered.undisturbed` asks that nothing fails anywhere.
pub fn changes_are_available()
    ensures model { ModelAnswersBorne }
    ensures exact { ModelExactIsAvailable }
{}
