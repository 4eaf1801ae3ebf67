//! Laws of accepted files, each the contract of a function that does nothing.
ghost use Rattle.std.specs.Prelude.{◌≡◌, ℕ, List, All, None};
ghost use Rattle.elf_raw.specs.declared.raw.RawElf.{RawElf};
ghost use Rattle.elf_raw.specs.Tables.{AreTablesOf};
ghost use Rattle.rv_code.specs.ImageParts.{ImageParts};
ghost use Rattle.rv_code.specs.Image.{IsImage};
ghost use Rattle.rv_code.specs.Numbers.{IsByte};
ghost use Rattle.elf_image.specs.Accepted.{IsAccepted, image_of};
ghost use Rattle.elf_image.specs.Refusal.{image_refusal};

use elf_raw::taken_files_are_sound;

/// The image of an accepted file is one that an image's type keeps. A file with tables, read from it or written with it, is accepted
/// where no refusal of executables holds.
pub fn accepted_files_have_images()
    ensures image { (bytes : List ℕ) (image : ImageParts) → All IsByte bytes → IsAccepted bytes image → IsImage image }
    ensures tables { (raw : RawElf) (bytes : List ℕ) → AreTablesOf raw bytes → image_refusal bytes ≡ None → IsAccepted bytes (image_of bytes) }
{
    taken_files_are_sound();
}
