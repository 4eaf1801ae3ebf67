//! The flags of a code word in a schema.
ghost use Rattle.std.specs.Prelude.{◌≡◌, ◌<◌, slice_get};
ghost use Rattle.schema_form.specs.Flags.{class_number, class_in, is_set, may_be_kept};

use rv_code::Class;

/// The classes by their numbers.
pub const CLASSES: [Class; 8] = [
    Class::Plain,
    Class::Load,
    Class::Store,
    Class::Branch,
    Class::Jump,
    Class::Indirect,
    Class::Call,
    Class::Stop,
];

/// The mark of a leader, where a block begins.
pub const LEADER: u32 = 0x10;

/// The mark of a word whose edge to the next address is recorded.
pub const FALL_WITNESS: u32 = 0x20;

/// The mark of a word whose edge to its direct target is recorded.
pub const TAKEN_WITNESS: u32 = 0x40;

/// The mark of a Plain word whose result is needed, and of a Load whose value is recorded.
pub const KEPT: u32 = 0x80;

/// The number of a class.
pub fn class_number(class: Class) -> u32
    ensures { result ≡ class_number class }
{
    match class {
        Class::Plain => 0,
        Class::Load => 1,
        Class::Store => 2,
        Class::Branch => 3,
        Class::Jump => 4,
        Class::Indirect => 5,
        Class::Call => 6,
        Class::Stop => 7,
    }
}

/// The class with this number among these, if there is one.
#[inline(always)]
fn class_among(classes: &[Class], number: u32) -> Option<Class>
    ensures { result ≡ slice_get classes.now number }
{
    classes.get(number as usize).copied()
}

/// The class that flags name, if there is one with their number.
#[inline(always)]
pub fn class_in(flags: u32) -> Option<Class>
    ensures { result ≡ class_in flags }
{
    class_among(&CLASSES, flags % 16)
}

/// Whether a mark is among the flags.
#[inline(always)]
pub fn is_set(mark: u32, flags: u32) -> bool
    requires { 0 < mark }
    ensures { result ≡ is_set mark flags }
{
    flags / mark % 2 == 1
}

/// Whether the result of a word of the class may be kept.
pub fn may_be_kept(class: Class) -> bool
    ensures { result ≡ may_be_kept class }
{
    match class {
        Class::Plain | Class::Load => true,
        _ => false,
    }
}
