//! Runs an image with code in four regions, of which the second and the fourth can be written, and writes its trace. No accepted
//! executable has such an image. Each turn calls the second region, which patches a word of its own and calls the third.
#![tactic(auto)]

ghost use Rattle.std.specs.Prelude.{◌≡◌, None};

mod mixed;
mod parts;

use ae_nums::LineWriter;
use ae_ports::{MemorySink, MemorySource};
use mixed::mixed_image;
use rv_code::Image;
use rv_machine::{Machine, MachineFault, Outcome};
use std::alloc::{AllocError, Global};
use std::io;

/// What the run of an image answers, and whether the sink got its whole trace.
struct Traced {
    outcome: Result<Outcome, MachineFault>,
    whole: bool,
}

/// Runs an image without input, and gives its trace to the sink.
fn trace_to(alloc: Global, image: &Image, sink: &mut MemorySink) -> Result<Traced, AllocError>
    requires { image.now.note ≡ None }
{
    let mut machine = Machine::load(alloc, image)?;
    let mut input = MemorySource::new(Vec::new(alloc), Vec::new(alloc));
    let mut out = MemorySink::new(alloc, Vec::new(alloc));
    let mut err = MemorySink::new(alloc, Vec::new(alloc));
    let mut lines = LineWriter::new(sink);
    let outcome = machine.trace(1000, &mut input, &mut out, &mut err, &mut lines);
    let whole = lines.finish().is_ok();
    Ok(Traced { outcome, whole })
}

fn main(rt: HostRuntime) -> io::Result<()> {
    let alloc = rt.alloc();
    let image = mixed_image(alloc)?;
    let mut sink = MemorySink::new(alloc, Vec::new(alloc));
    let Traced { outcome, whole } = trace_to(alloc, &image, &mut sink)?;
    println!(&rt; "{outcome:?} {whole}")?;
    match String::from_utf8(sink.taken().to_vec(alloc)?) {
        Ok(text) => print!(&rt; "{text}"),
        Err(_) => println!(&rt; "no text"),
    }
}
