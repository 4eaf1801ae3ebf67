//! Laws of steps and runs. Each is the contract of a function that does nothing, or that looks at an image, whose type keeps
//! what the law rests on.
ghost use Rattle.rv_machine.specs.Laws.{RunsJoin, ItemsJoin, KeepsTracers, KeepsRegions, BeginsInRanges, KeepsRanges, OutputsGrow, BeginsWithCode, CleanStepsKeepCode, FetchesItsCode};

use rv_code::Image;

/// A run of m + n steps is a run of m steps and then, from its last state on, of n.
pub fn runs_join()
    ensures { RunsJoin }
{}

/// The items of m + n steps are those of m steps and then of n.
pub fn items_join()
    ensures { ItemsJoin }
{}

/// A step maps and unmaps nothing at or above c0000000, where the tracer's own lies, and changes nowhere there whether a
/// byte is writable.
pub fn tracers_stay()
    ensures { KeepsTracers }
{}

/// A step neither unmaps a byte of the image's regions or of the stack nor changes whether it is writable.
pub fn regions_stay()
    ensures { KeepsRegions }
{}

/// At the start of a run of the image, registers and the pc are below 2^32, bytes below 256, x0 is 0, and no address has two
/// bytes.
pub fn ranges_begin(image: &Image)
    ensures { BeginsInRanges image.now }
{
    let _ = &image.entry;
}

/// A step keeps registers and the pc below 2^32, bytes below 256, x0 at 0, and no address with two bytes.
pub fn ranges_stay()
    ensures { KeepsRanges }
{}

/// What a run has given to the outputs and to the event bytes stays given.
pub fn outputs_grow()
    ensures { OutputsGrow }
{}

/// At the start of a run of the image, memory has the image's code words.
pub fn code_begins(image: &Image)
    ensures { BeginsWithCode image.now }
{
    let _ = &image.entry;
}

/// A clean step keeps the image's code words in memory, and as long as they are there, what is fetched is the image's word.
pub fn clean_steps_keep_code(image: &Image)
    ensures steps { CleanStepsKeepCode image.now }
    ensures fetches { FetchesItsCode image.now }
{
    let _ = &image.entry;
}
