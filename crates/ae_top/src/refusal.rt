use elf_image::ImageFault;
use elf_raw::ElfFault;

/// Why a file isn't taken as an executable.
#[derive(Clone, Copy, Debug, PartialEq, Eq)]
pub enum Refusal {
    /// Its tables can't be read as those of an executable of RV32.
    Elf(ElfFault),
    /// What its tables say isn't accepted.
    Image(ImageFault),
}
