//! The image: code in four regions, of which the second and the fourth can be written.
ghost use Rattle.std.specs.Prelude.{◌≡◌, None, IfOk};
ghost use Rattle.mixed_code.specs.Mixed.{mixed_regions, mixed_code};

use crate::parts::{range, region};
use rv_code::{Image, ListOf, Range, Region};
use std::alloc::{AllocError, Global};

/// Three turns, each a call of the second region, and then a jump to the fourth.
const FIRST: [u32; 7] = [
    0x0030_0293, // addi x5, x0, 3
    0x0002_0337, // lui x6, 0x20
    0x0003_00e7, // jalr x1, 0(x6)
    0xfff2_8293, // addi x5, x5, -1
    0xfe02_9ae3, // bne x5, x0, -12
    0x0004_03b7, // lui x7, 0x40
    0x0003_8067, // jalr x0, 0(x7)
];

/// Adds 1 to the immediate of its fifth word, does that word, and calls the third region.
const SECOND: [u32; 8] = [
    0x0103_2403, // lw x8, 16(x6)
    0x0010_04b7, // lui x9, 0x100
    0x0094_0433, // add x8, x8, x9
    0x0083_2823, // sw x8, 16(x6)
    0x0005_0513, // addi x10, x10, 0
    0x0003_05b7, // lui x11, 0x30
    0x0005_8667, // jalr x12, 0(x11)
    0x0000_8067, // jalr x0, 0(x1)
];

/// Counts, and returns.
const THIRD: [u32; 2] = [
    0x0016_8693, // addi x13, x13, 1
    0x0006_0067, // jalr x0, 0(x12)
];

/// Exits with the sum of the immediates.
const FOURTH: [u32; 2] = [
    0x05d0_0893, // addi x17, x0, 93
    0x0000_0073, // ecall
];

fn regions(alloc: Global) -> Result<Vec<Region>, AllocError>
    ensures { IfOk result (λ regions. regions.items ≡ mixed_regions) }
{
    Ok(vec![in alloc;
        region(alloc, 0x10000, &FIRST, false)?,
        region(alloc, 0x20000, &SECOND, true)?,
        region(alloc, 0x30000, &THIRD, false)?,
        region(alloc, 0x40000, &FOURTH, true)?,
    ]?)
}

fn code(alloc: Global) -> Result<Vec<Range>, AllocError>
    ensures { IfOk result (λ ranges. ranges.items ≡ mixed_code) }
{
    Ok(vec![in alloc;
        range(alloc, 0x10000, &FIRST)?,
        range(alloc, 0x20000, &SECOND)?,
        range(alloc, 0x30000, &THIRD)?,
        range(alloc, 0x40000, &FOURTH)?,
    ]?)
}

/// The image. It has no note.
pub(crate) fn mixed_image(alloc: Global) -> Result<Image, AllocError>
    ensures { IfOk result (λ image. image.note ≡ None) }
{
    Ok(Image {
        entry: 0x10000,
        regions: ListOf::from_vec(regions(alloc)?),
        code: ListOf::from_vec(code(alloc)?),
        names: ListOf::from_vec(Vec::new(alloc)),
        named: ListOf::from_vec(Vec::new(alloc)),
        note: None,
    })
}
