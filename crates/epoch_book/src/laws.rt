ghost use Rattle.epoch_book.specs.SoundFacts.{SoundCutsAreLearnt, SoundAdvancesAreLearnt};

/// A book that knows a part of a sound log refuses a truncation or an advance of that log only if an allocation fails.
pub fn sound_facts_are_learnt()
    ensures cuts { SoundCutsAreLearnt }
    ensures advances { SoundAdvancesAreLearnt }
{}
