//! Laws of schemas and of events, each the contract of a function that does nothing.
ghost use Rattle.schema_form.specs.CodeShape.{SchemasFindTheirWords, SchemasHaveTheShape, ShapesOfCodeAreShapes};
ghost use Rattle.schema_form.specs.EventFiles.{EventFilesAreReadBack};
ghost use Rattle.schema_form.specs.Laws.{SchemasAreReadBack, SchemasHaveOneSpelling, RefusalsAreExact};
ghost use Rattle.schema_form.specs.OfImage.{SchemasAreDetermined};
ghost use Rattle.schema_form.specs.RunEvents.{EventsAreDetermined};

use ev_format::written_records_are_read;
use rv_code::{Image, words_and_instructions_agree};
use rv_machine::laws::{ranges_begin, ranges_stay};

/// What is written is read back: the bytes of a schema say this schema.
pub fn written_schemas_are_read()
    ensures { SchemasAreReadBack }
{}

/// What bytes say is a schema, and they are its bytes: no schema has two spellings.
pub fn a_schema_has_one_spelling()
    ensures { SchemasHaveOneSpelling }
{}

/// Bytes that say a schema aren't refused, and no bytes are refused in two ways.
pub fn refusals_are_exact()
    ensures { RefusalsAreExact }
{}

/// Code under given marks of its edges has one schema.
pub fn code_has_one_schema()
    ensures { SchemasAreDetermined }
{}

/// The schema of code under marks has a word for exactly the addresses of code words, and it is the one of this address.
pub fn a_schema_has_the_words_of_its_code()
    ensures { SchemasFindTheirWords }
{}

/// The schema of code under marks has the shape of the code under these marks: which records each address may have, and which
/// registers each target needs. No address has both a value and a landing, and x0 is never needed.
pub fn a_schema_has_the_shape_of_its_code()
    ensures schema { SchemasHaveTheShape }
    ensures shape { ShapesOfCodeAreShapes }
{}

/// Under given marks of the code's edges, each run has one list of events and one event file.
pub fn runs_have_one_list_of_events()
    ensures { EventsAreDetermined }
{}

/// The events of each run of an image are records of its shape, under any marks. Where the run has ended, its event file is read
/// back as its events.
pub fn event_files_are_read_back(image: &Image)
    ensures { EventFilesAreReadBack image.now }
{
    words_and_instructions_agree();
    ranges_stay();
    ranges_begin(image);
    written_records_are_read();
}
