//! The law that joins slices and needs, as the contract of a function that does nothing.
ghost use Rattle.std.specs.Prelude.{List};
ghost use Rattle.rv_code.specs.declared.image.Range.{Range};
ghost use Rattle.reach_slice.specs.Laws.{KeptAreInSlices, HardAreInSlices};

/// A Plain word is kept, and a load is hard, exactly where it is in the slice of some load or store.
pub fn kept_words_are_in_slices()
    ensures kept { (code : List Range) → KeptAreInSlices code }
    ensures hard { (code : List Range) → HardAreInSlices code }
{}
