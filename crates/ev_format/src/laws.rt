//! Laws of event files, each the contract of a function that does nothing.
ghost use Rattle.ev_format.specs.Laws.{IsOnlyReading, HaveOneFront, HasFronts, HasOneSpelling, IsReadBack};
ghost use Rattle.ev_format.specs.Shapes.{ShapeView, IsShape};

/// The bytes that are left at a place have at most one reading.
pub fn a_reading_is_the_only_one()
    ensures { (shape : ShapeView) → IsShape shape → IsOnlyReading shape }
{}

/// Of two lists of records that stand at the front of the same bytes, one begins with the other.
pub fn one_front_begins_the_other()
    ensures { (shape : ShapeView) → IsShape shape → HaveOneFront shape }
{}

/// A reading begins with each list of records that stand at the front of its bytes.
pub fn a_reading_begins_with_each_front()
    ensures { (shape : ShapeView) → IsShape shape → HasFronts shape }
{}

/// No two records of a shape begin with the same bytes, whatever follows them: each has one spelling, and no spelling begins
/// another.
pub fn records_have_one_spelling()
    ensures { (shape : ShapeView) → IsShape shape → HasOneSpelling shape }
{}

/// What is written is read back: where records of a shape stand behind its header, one after another, and the last of them
/// and no other is an `End`, they are the reading of the file, which is finished then.
pub fn written_records_are_read()
    ensures { (shape : ShapeView) → IsReadBack shape }
{}
