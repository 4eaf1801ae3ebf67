ghost use Rattle.std.specs.Prelude.{◌≡◌, ◌+◌, ◌*◌, ◌≤◌, IfSome};
ghost use Rattle.ae_words.specs.Options.{option_table, slot_named, no_options, options_count, with_fuel, with_dump, with_value, with_option, options_given};

use crate::files::{names_a_file, stands_among};
use crate::numbers::positive;
use ae_ports::Word;

/// A command that takes options.
#[derive(Clone, Copy, Debug, PartialEq, Eq)]
pub enum Takes {
    Run,
    Plain,
}

/// Where the value of an option goes.
#[derive(Clone, Copy, Debug, PartialEq, Eq)]
pub enum Slot {
    Fuel,
    Dump,
}

impl Takes {
    /// Where the value of the option of this name goes: the table of options. It is `None` where the command takes none of
    /// the name.
    pub fn slot_named(self, name: &[u8]) -> Option<Slot>
        ensures { result ≡ slot_named (option_table self) name.now }
    {
        match self {
            Takes::Run if name == b"--fuel".as_slice() => Some(Slot::Fuel),
            Takes::Run if name == b"--dump".as_slice() => Some(Slot::Dump),
            Takes::Plain if name == b"--fuel".as_slice() => Some(Slot::Fuel),
            _ => None,
        }
    }
}

/// What options say: the fuel, and the place of the word that names the dump's file.
#[derive(Clone, Copy)]
pub struct GivenOptions {
    pub fuel: Option<u64>,
    pub dump: Option<u32>,
}

impl GivenOptions {
    /// No option.
    pub fn none() -> GivenOptions
        ensures { result ≡ no_options }
    {
        GivenOptions {
            fuel: None,
            dump: None,
        }
    }

    /// These options and the fuel, unless it was given before.
    fn with_fuel(self, value: &[u8]) -> Option<GivenOptions>
        ensures options { result ≡ with_fuel self value.now }
        ensures one_more { IfSome result (λ now. options_count now ≡ options_count self + 1) }
    {
        if self.fuel.is_some() {
            return None;
        }
        Some(GivenOptions {
            fuel: Some(positive(value)?),
            ..self
        })
    }

    /// These options and the dump's file at this place, unless it was given before or is one of these files.
    fn with_dump(self, files: &[Word], place: u32, value: &[u8]) -> Option<GivenOptions>
        ensures options { result ≡ with_dump files.now self place value.now }
        ensures one_more { IfSome result (λ now. options_count now ≡ options_count self + 1) }
    {
        if self.dump.is_none() && names_a_file(value) && !stands_among(value, files) {
            Some(GivenOptions {
                dump: Some(place),
                ..self
            })
        } else {
            None
        }
    }

    /// These options and the value at this place, where it goes.
    fn with_value(
        self,
        files: &[Word],
        place: u32,
        value: &[u8],
        slot: Slot,
    ) -> Option<GivenOptions>
        ensures options { result ≡ with_value files.now self place value.now slot }
        ensures one_more { IfSome result (λ now. options_count now ≡ options_count self + 1) }
    {
        match slot {
            Slot::Fuel => self.with_fuel(value),
            Slot::Dump => self.with_dump(files, place, value),
        }
    }

    /// These options and one more that the command takes, whose value stands at this place.
    fn with_option(
        self,
        takes: Takes,
        files: &[Word],
        place: u32,
        name: &[u8],
        value: &[u8],
    ) -> Option<GivenOptions>
        ensures options { result ≡ with_option takes files.now self place name.now value.now }
        ensures one_more { IfSome result (λ now. options_count now ≡ options_count self + 1) }
    {
        self.with_value(files, place, value, takes.slot_named(name)?)
    }

    /// These options and those that the words spell which stand from this place on. The calls go no deeper than three:
    /// a third option is refused.
    pub fn with_options(
        self,
        takes: Takes,
        files: &[Word],
        place: u32,
        words: &[Word],
    ) -> Option<GivenOptions>
        requires { place ≤ 3 + 2 * options_count self }
        ensures { result ≡ options_given takes files.now self place words.now }
    {
        match words {
            [] => Some(self),
            [_] => None,
            [name, value, rest @ ..] => self
                .with_option(takes, files, place + 1, name.bytes(), value.bytes())?
                .with_options(takes, files, place + 2, rest),
        }
    }
}
