//! Laws of files, each the contract of a function that does nothing.
ghost use Rattle.std.specs.Prelude.{◌≡◌, ℕ, ◌+◌, ◌*◌, ◌<◌, ◌++◌, List, length, slice_index, None};
ghost use Rattle.std.specs.List.{AllByRecursion};
ghost use Rattle.elf_raw.specs.Numbers.{word_at};
ghost use Rattle.elf_raw.specs.Refusal.{elf_refusal, IsSound};
ghost use Rattle.elf_raw.specs.Written.{word_bytes};
ghost use Rattle.rv_code.specs.Numbers.{IsWord};

/// The tables of a file that isn't refused lie within it, with what they say.
#[tactic(auto, using(crate::proofs::Sound::sound))]
pub fn taken_files_are_sound()
    ensures { (bytes : List ℕ) → elf_refusal bytes ≡ None → IsSound bytes }
{}

/// Words that were written one after the other have four bytes each, and each is read back where it stands.
pub fn words_are_read_back()
    ensures length { (words : List ℕ) → length (word_bytes words) ≡ 4 * length words }
    ensures each { (before words behind : List ℕ) (number : ℕ) → AllByRecursion IsWord words → number < length words
        → word_at (before ++ (word_bytes words ++ behind)) (length before + 4 * number) ≡ slice_index words number }
{}
