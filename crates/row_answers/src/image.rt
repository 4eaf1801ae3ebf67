//! Images of executables, and look-ups of their code words.
use crate::telling::{add, decimal_or_nothing, hex_or_nothing, split, words};
use elf_image::accept;
use elf_raw::read_raw;
use row_form::not_understood;
use rv_code::Image;
use std::alloc::Global;
use std::io;

/// The image of an executable of at most a million bytes, if it is accepted.
pub fn image_of(alloc: Global, bytes: &[u8]) -> Option<Image> {
    if bytes.len() > 1_000_000 {
        return None;
    }
    let Ok(raw) = read_raw(alloc, bytes) else {
        return None;
    };
    match accept(alloc, &raw, bytes) {
        Ok(image) => Some(image),
        Err(_) => None,
    }
}

/// The answers to a question of an image, for each number that stands behind it.
pub fn image_answer(alloc: Global, image: &Image, question: &str) -> io::Result<Vec<u8>> {
    let (key, rest) = split(question);
    if key == "count" {
        return decimal_or_nothing(alloc, Some(u64::from(image.count())));
    }
    let mut answers = Vec::new(alloc);
    for number in words(alloc, rest)? {
        add(&mut answers, &look_up(alloc, image, key, number)?)?;
    }
    Ok(answers)
}

fn look_up(alloc: Global, image: &Image, key: &str, number: u32) -> io::Result<Vec<u8>> {
    match key {
        "word" => hex_or_nothing(alloc, image.word_at(number)),
        "place" => decimal_or_nothing(alloc, image.place_of(number).map(u64::from)),
        "address" => hex_or_nothing(alloc, image.address_of(number)),
        _ => Err(not_understood()),
    }
}
