//! The registers of a walk.
ghost use Rattle.std.specs.Prelude.{◌≡◌, ◌<◌, length};
ghost use Rattle.ae_nums.specs.Registers.{registers_of};
ghost use Rattle.rv_machine.specs.Start.{first_registers};
ghost use Rattle.rv_machine.specs.State.{register_of, with_register};
ghost use Rattle.regen_walk.specs.Registers.{with_values};

use ae_nums::registers_of;
use rv_code::FIRST_STACK_POINTER;

/// The registers at the start: those of a run at its start.
#[tactic(auto, unfolding(rv_machine::specs::Start::first_registers))]
pub fn first_registers() -> [u32; 32]
    ensures { result ≡ first_registers }
{
    let mut registers = [0; 32];
    registers[2] = FIRST_STACK_POINTER;
    registers
}

/// The value of a register.
#[inline(always)]
pub fn register_of(registers: &[u32; 32], register: u8) -> u32
    requires { register < 32 }
    ensures { result ≡ register_of registers.now register }
{
    if register == 0 {
        0
    } else {
        registers[register as usize]
    }
}

/// Puts a value into a register.
#[inline(always)]
pub fn put_value(registers: &mut [u32; 32], register: u8, value: u32)
    requires { register < 32 }
    ensures { registers.new ≡ with_register registers.old register value }
{
    if register != 0 {
        registers[register as usize] = value;
    }
}

/// Puts values into the registers of a mask, in order.
pub fn put_values(registers: &mut [u32; 32], mask: u32, values: &[u32])
    requires { length values.now ≡ length (registers_of mask) }
    ensures { registers.new ≡ with_values registers.old (registers_of mask) values.now }
{
    let mut place = 0;
    for register in registers_of(mask) {
        put_value(registers, register, values[place]);
        place += 1;
    }
}
