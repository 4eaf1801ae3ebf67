//! A row's questions, one after another.
use crate::code::code_answer;
use crate::commands::command_answer;
use crate::devices::device_answer;
use crate::graph::graph_answer;
use crate::image::{image_answer, image_of};
use crate::lent::lent_answer;
use crate::memory::memory_answer;
use crate::needs::{mask_answer, slice_answer};
use crate::numbers::number_answer;
use crate::schema::schema_answer;
use crate::telling::split;
use crate::writing::writer_answer;
use flow_graph::Graph;
use row_form::not_understood;
use rv_code::Image;
use rv_memory::Memory;
use std::alloc::{AllocError, Global};
use std::io;

/// What is asked: the image of an executable, its flow graph, and its memory, which questions may change.
#[derive(Drop)]
pub struct Asked {
    file: Option<File>,
}

#[derive(Drop)]
struct File {
    image: Image,
    graph: Graph,
    memory: Memory,
}

/// All that is asked of an image.
fn file_of(alloc: Global, image: Image) -> Result<File, AllocError> {
    let graph = Graph::build(alloc, &image)?;
    let memory = Memory::load(alloc, &image)?;
    Ok(File {
        image,
        graph,
        memory,
    })
}

impl Asked {
    /// The image, the graph and the memory of these bytes, if they are an executable that is accepted. The only error is want of
    /// memory.
    pub fn new(alloc: Global, bytes: &[u8]) -> Result<Asked, AllocError> {
        let file = match image_of(alloc, bytes) {
            Some(image) => Some(file_of(alloc, image)?),
            None => None,
        };
        Ok(Asked { file })
    }

    /// The answer to a question, which begins with what is asked.
    ///
    /// # Errors
    ///
    /// The question isn't understood, or memory was wanting.
    pub fn answer(&mut self, alloc: Global, question: &str) -> io::Result<Vec<u8>> {
        let (what, rest) = split(question);
        match what {
            "words" => command_answer(alloc, rest),
            "number" => number_answer(alloc, rest),
            "code" => code_answer(alloc, rest),
            "device" => device_answer(alloc, rest),
            "lent" => lent_answer(alloc, rest),
            "writer" => writer_answer(alloc, rest),
            _ => self.answer_of_file(alloc, what, rest),
        }
    }

    /// The answer to a question of the file.
    fn answer_of_file(&mut self, alloc: Global, what: &str, rest: &str) -> io::Result<Vec<u8>> {
        let Some(file) = &mut self.file else {
            return Err(not_understood());
        };
        match what {
            "image" => image_answer(alloc, &file.image, rest),
            "graph" => graph_answer(alloc, &file.graph, rest),
            "mask" => mask_answer(alloc, &file.graph, rest),
            "slice" => slice_answer(alloc, &file.graph, rest),
            "schema" => schema_answer(alloc, &file.image),
            "memory" => memory_answer(alloc, &mut file.memory, rest),
            _ => Err(not_understood()),
        }
    }
}
