//! Places that wait, each once.
ghost use Rattle.std.specs.Prelude.{◌≡◌, ◌⊎◌, ◌<◌, ◌≤◌, ◌+◌, ℕ, List, [], ◌∷◌, ◌++◌, IfOk, OnOk, MatchOption, length};
ghost use Rattle.std.specs.List.{Contains};
ghost use Rattle.need_sets.specs.Inner.Waiting.{WaitingParts};

use std::alloc::{AllocError, Global};
use std::marker::Model;

/// Places from which to go on. Contracts see those that wait, and below which number all places are.
#[derive(Drop)]
pub struct Waiting {
    places: Vec<u32>,
    marks: Vec<bool>,
}

impl Model for Waiting {
    ghost use Rattle.need_sets.specs.Inner.Waiting.{WaitingParts};

    ghost Value = { WaitingParts };

    ghost use Rattle.need_sets.specs.Inner.WaitingView.{waiting_parts, IsWaiting};

    ghost view = { waiting_parts };

    ghost invariant = { IsWaiting };
}

impl Waiting {
    /// No places of so many.
    pub fn new(alloc: Global, size: u32) -> Result<Waiting, AllocError>
        ensures { IfOk result (λ waiting. waiting ≡ record { size = size; places = [] }) }
    {
        let marks = vec![in alloc; false; size as usize]?;
        Ok(Waiting {
            places: Vec::new(alloc),
            marks,
        })
    }

    /// Lets the place wait, unless it does already.
    pub fn add(&mut self, place: u32) -> Result<(), AllocError>
        requires { place < self.old.size }
        ensures size { OnOk result (self.new.size ≡ self.old.size) }
        ensures added { OnOk result (Contains self.new.places place) }
        ensures kept { OnOk result ((other : ℕ) → Contains self.old.places other → Contains self.new.places other) }
        ensures longer { OnOk result (length self.new.places ≤ length self.old.places + 1) }
    {
        if !self.marks[place as usize] {
            self.places.push(place)?;
            self.marks[place as usize] = true;
        }
        Ok(())
    }

    /// Takes a place out, if one waits.
    pub fn take(&mut self) -> Option<u32>
        ensures size { self.new.size ≡ self.old.size }
        ensures taken { MatchOption result (self.old.places ≡ []) (λ place. self.old.places ≡ self.new.places ++ place ∷ []) }
        ensures within { MatchOption result (self.new.places ≡ self.old.places) (λ place. place < self.old.size) }
    {
        let place = self.places.pop()?;
        self.marks[place as usize] = false;
        Some(place)
    }
}
