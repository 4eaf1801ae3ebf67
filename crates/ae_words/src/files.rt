ghost use Rattle.std.specs.Prelude.{◌≡◌, ◌==◌, not};
ghost use Rattle.std.specs.List.{list_all};
ghost use Rattle.ae_words.specs.Files.{is_file_word, is_among, are_file_words};

use ae_ports::Word;

fn has_no_zero(bytes: &[u8]) -> bool
    ensures { result ≡ list_all (λ byte. not (byte == 0)) bytes.now }
{
    bytes.iter().all(|byte| *byte != 0)
}

/// Whether a word may name a file: it isn't empty, doesn't begin with `-` and has no zero byte.
pub fn names_a_file(word: &[u8]) -> bool
    ensures { result ≡ is_file_word word.now }
{
    !word.is_empty() && word[0] != b'-' && has_no_zero(word)
}

/// Whether a word is one of these.
pub fn stands_among(word: &[u8], words: &[Word]) -> bool
    ensures { result ≡ is_among word.now words.now }
{
    words.iter().any(|other| other.bytes() == word)
}

/// Whether all of these words may name files, and no two are the same. They are compared two by two: a command has few.
pub fn name_files(words: &[Word]) -> bool
    ensures { result ≡ are_file_words words.now }
{
    match words {
        [] => true,
        [word, rest @ ..] => {
            names_a_file(word.bytes()) && !stands_among(word.bytes(), rest) && name_files(rest)
        }
    }
}
