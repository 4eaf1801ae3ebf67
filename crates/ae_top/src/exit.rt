//! The exit code of a whole call.
ghost use Rattle.ae_top.specs.Top.{AnswersCode};
ghost use Rattle.ae_top.specs.World.{port, world};

use crate::ae;
use ae_ports::{Sink, Source, Store, Word};
use std::alloc::Global;

/// Makes the top call, and answers the exit code of its status: all that is promised of [`ae`] holds of that status.
pub fn exit_code<S: Store, I: Source, O: Sink, P: Sink>(
    alloc: Global,
    words: &[Word],
    store: &mut S,
    input: &mut I,
    out: &mut O,
    err: &mut P,
) -> u8
    ensures answers { let before = world (port (S.told store.old) (S.faults store.old))
        (port (I.told input.old) (I.faults input.old)) (port (O.told out.old) (O.faults out.old))
        (port (P.told err.old) (P.faults err.old)) in
        let now = world (port (S.told store.new) (S.faults store.new))
        (port (I.told input.new) (I.faults input.new)) (port (O.told out.new) (O.faults out.new))
        (port (P.told err.new) (P.faults err.new)) in
        AnswersCode words.now result before now }
    ensures store { S.same_rest store.old store.new }
    ensures input { I.same_rest input.old input.new }
    ensures out { O.same_rest out.old out.new }
    ensures err { P.same_rest err.old err.new }
{
    let status = ae(alloc, words, store, input, out, err);
    status.code()
}
