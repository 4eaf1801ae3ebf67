//! The names of routines.
ghost use Rattle.std.specs.Prelude.{◌≡◌, ◌<◌, IfOk, OnOk, Some, length, slice_get};
ghost use Rattle.std.specs.Option.{option_map};
ghost use Rattle.flow_graph.specs.CodeParts.{routine_named, first_seen, text_numbered};
ghost use Rattle.flow_graph.specs.RoutineNames.{name_by, with_name};

use indexmap::IndexMap;
use rv_code::Name;
use std::alloc::{AllocError, Global};
use std::marker::Model;

/// Names of routines, each once, in the order in which they were first seen, and the address of each.
#[derive(Drop)]
pub struct Routines {
    addresses: IndexMap<Vec<u8>, u32>,
}

impl Model for Routines {
    ghost use Rattle.std.specs.Prelude.{List};
    ghost use Rattle.rv_code.specs.declared.image.Name.{Name};
    ghost use Rattle.flow_graph.specs.RoutineNames.{names_by};

    ghost Value = { List Name };

    ghost view = { λ routines. names_by (λ key. key.items) routines.addresses.entries };
}

impl Routines {
    /// The routines with these names. Where a name is there more than once, its first address counts.
    pub fn from_names(alloc: Global, names: &[Name]) -> Result<Self, AllocError>
        ensures { IfOk result (λ routines. routines ≡ first_seen names.now) }
    {
        let mut routines = Routines {
            addresses: IndexMap::new(alloc),
        };
        for name in names {
            routines.add(alloc, name)?;
        }
        Ok(routines)
    }

    /// Adds the name, unless it is there.
    fn add(&mut self, alloc: Global, name: &Name) -> Result<(), AllocError>
        ensures { OnOk result (self.new ≡ with_name self.old name.now) }
    {
        let text = name.text.as_slice();
        if !self.addresses.contains_key(text) {
            self.addresses.insert(text.to_vec(alloc)?, name.address)?;
        }
        Ok(())
    }

    /// The address of the routine with this name.
    pub fn address(&self, text: &[u8]) -> Option<u32>
        ensures { result ≡ routine_named self.now text.now }
    {
        self.addresses.get(text).copied()
    }

    /// The name with this number, counted from 0.
    pub fn name(&self, number: u32) -> Option<&[u8]>
        ensures { option_map (λ text. text.now) result ≡ text_numbered self.now number }
    {
        match self.addresses.get_index(number as usize) {
            Some((text, _)) => Some(text.as_slice()),
            None => None,
        }
    }

    /// How many names there are.
    pub fn len(&self) -> usize
        ensures { result ≡ length self.now }
    {
        self.addresses.len()
    }

    /// The name with this number, of which there are more, and its address.
    pub fn numbered(&self, number: usize) -> (&[u8], u32)
        requires { number < length self.now }
        ensures { slice_get self.now number ≡ Some (name_by (λ text. text.now) result) }
    {
        match self.addresses.get_index(number) {
            Some((text, address)) => (text.as_slice(), *address),
            None => unreachable!(),
        }
    }
}
