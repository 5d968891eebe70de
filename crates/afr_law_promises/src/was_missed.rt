//! The law of misses: what a split-brain needs.

ghost use Rattle.afr_law_promises.specs.Missed.ByPosition.{AccusationsHaveCausesSince};
ghost use Rattle.afr_law_promises.specs.Missed.Missed.{ModelExactMissed, ModelHaveCausesSince};

/// Where a brick accuses another now and didn't at an earlier moment, a post-op stands in between, of an attempt on the
/// object and kind, that names the other as having missed it. So where bricks show a split-brain, each copy among them
/// missed an operation since all numbers of the object were last 0: one that missed nothing means no split-brain. The
/// clauses are those of the other laws; the part on split-brains is in `exact`, since views are sums there.
pub fn split_copies_missed()
    ensures model { ModelHaveCausesSince }
    ensures lines { AccusationsHaveCausesSince }
    ensures exact { ModelExactMissed }
{}
