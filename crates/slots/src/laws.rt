//! What the words of the contracts mean.

ghost use Rattle.slots.specs.Laws.{BytesGoOver, LowestIsFirst, MasksAreSets};

/// Laws about the words of the contracts; the call runs no code. Transferred bytes are added to the set of
/// those transferred before. The mask of a set of slots has the bits of the set. The lowest slot of a set is
/// in the set, and none below it is.
pub fn words_mean_sets()
    ensures bytes { BytesGoOver }
    ensures masks { MasksAreSets }
    ensures lowest { LowestIsFirst }
{}
