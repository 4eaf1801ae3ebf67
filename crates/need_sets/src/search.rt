//! A search backwards, from bases, for what is needed.
ghost use Rattle.std.specs.Prelude.{◌≡◌, ◌⊎◌, ◌<◌, ◌^◌, ℕ, Bool, true, [], Option, Some, IfOk, OnOk, length, replicate, false, slice_set, bit_or};
ghost use Rattle.std.specs.List.{AllByRecursion, Contains};
ghost use Rattle.rv_code.specs.Code.{extents_of};
ghost use Rattle.rv_code.specs.Image.{word_count};
ghost use Rattle.rv_code.specs.Encoding.{Fits};
ghost use Rattle.rv_code.specs.Places.{address_of, AreCodeExtents, EndsInSpace};
ghost use Rattle.need_sets.specs.Inner.Before.{GivesNeeded};
ghost use Rattle.need_sets.specs.Inner.Search.{IsSized, Spreads, IsPassed, IsBacked, AllNeeded, HasBase, AsksFor, IsPassedBy, IsSearched, AreSettled, Grows, mask_in, used_in};
ghost use Rattle.need_sets.specs.Inner.Sources.{AreSources, led_to};

use crate::before::{gives_needed, needed_before};
use crate::sources::Sources;
use crate::waiting::Waiting;
use flow_graph::address_at;
use rv_code::{Instr, Range, base, count_in, decode, place_in, word_in};
use std::alloc::{AllocError, Global};

/// What is found so far, by places: the registers that are needed at each word, whether what it writes is needed behind it, and
/// the places from which to go on.
#[derive(Drop)]
pub struct Search {
    pub masks: Vec<u32>,
    pub used: Vec<bool>,
    pub waiting: Waiting,
}

impl Search {
    /// Nothing is needed yet.
    pub fn new(alloc: Global, count: u32) -> Result<Search, AllocError>
        ensures sized { IfOk result (IsSized count) }
        ensures masks { IfOk result (λ search. search.masks.items ≡ replicate count 0) }
        ensures used { IfOk result (λ search. search.used.items ≡ replicate count false) }
        ensures waiting { IfOk result (λ search. search.waiting.places ≡ []) }
    {
        let masks = vec![in alloc; 0; count as usize]?;
        let used = vec![in alloc; false; count as usize]?;
        Ok(Search {
            masks,
            used,
            waiting: Waiting::new(alloc, count)?,
        })
    }

    /// These registers are needed at the place. Where some of them weren't known to be, it waits.
    pub fn need(&mut self, place: u32, mask: u32) -> Result<(), AllocError>
        requires sized { IsSized (length self.old.masks.items) self.old }
        requires within { place < length self.old.masks.items }
        ensures sized { OnOk result (IsSized (length self.old.masks.items) self.new) }
        ensures spreads { OnOk result (Spreads self.old self.new) }
        ensures masks { OnOk result (self.new.masks.items ≡ slice_set self.old.masks.items place (bit_or (mask_in self.old place) mask)) }
        ensures used { OnOk result (self.new.used.items ≡ self.old.used.items) }
    {
        let known = self.masks[place as usize];
        if known | mask != known {
            self.masks[place as usize] = known | mask;
            self.waiting.add(place)?;
        }
        Ok(())
    }

    /// Marks the word at the place, which means the instruction, where it gives what is needed behind it.
    fn mark(&mut self, place: u32, instr: &Instr, behind: u32)
        requires sized { IsSized (length self.old.masks.items) self.old }
        requires within { place < length self.old.masks.items }
        requires fits { Fits instr.now }
        ensures sized { IsSized (length self.old.masks.items) self.new }
        ensures spreads { Spreads self.old self.new }
        ensures masks { self.new.masks.items ≡ self.old.masks.items }
        ensures marked { GivesNeeded instr.now behind → used_in self.new place ≡ true }
        ensures others { (other : ℕ) → used_in self.new other ≡ true → (used_in self.old other ≡ true) ⊎ ((other ≡ place) × GivesNeeded instr.now behind) }
    {
        if gives_needed(instr, behind) {
            self.used[place as usize] = true;
        }
    }

    /// Passes the registers that are needed behind the word at the place back to it.
    fn pass_to(&mut self, ranges: &[Range], place: u32, behind: u32) -> Result<(), AllocError>
        requires ends { AllByRecursion EndsInSpace (extents_of ranges.now) }
        requires words { word_count ranges.now < 2 ^ 32 }
        requires sized { IsSized (word_count ranges.now) self.old }
        requires within { place < word_count ranges.now }
        ensures sized { OnOk result (IsSized (word_count ranges.now) self.new) }
        ensures spreads { OnOk result (Spreads self.old self.new) }
        ensures passed { OnOk result (IsPassed ranges.now self.new place behind) }
        ensures sound { (bases : ℕ → Option ℕ) (taken : Bool) (goal : ℕ) → led_to ranges.now taken place ≡ Some goal → AllNeeded ranges.now bases goal behind
            → IsBacked ranges.now bases self.old → OnOk result (IsBacked ranges.now bases self.new) }
    {
        let Some(word) = word_in(ranges, address_at(ranges, place)) else {
            return Ok(());
        };
        let instr = decode(word);
        self.mark(place, &instr, behind);
        self.need(place, needed_before(&instr, behind))
    }

    /// What the word at the place has as its base is needed there.
    pub fn need_base(&mut self, ranges: &[Range], place: u32) -> Result<(), AllocError>
        requires ends { AllByRecursion EndsInSpace (extents_of ranges.now) }
        requires words { word_count ranges.now < 2 ^ 32 }
        requires sized { IsSized (word_count ranges.now) self.old }
        requires within { place < word_count ranges.now }
        ensures sized { OnOk result (IsSized (word_count ranges.now) self.new) }
        ensures spreads { OnOk result (Spreads self.old self.new) }
        ensures needed { OnOk result (HasBase ranges.now self.new place) }
        ensures sound { (bases : ℕ → Option ℕ) → AsksFor ranges.now bases place → IsBacked ranges.now bases self.old → OnOk result (IsBacked ranges.now bases self.new) }
    {
        let Some(word) = word_in(ranges, address_at(ranges, place)) else {
            return Ok(());
        };
        match base(&decode(word)) {
            Some(register) => self.need(place, 1 << register),
            None => Ok(()),
        }
    }

    /// What all words have as their bases is needed there.
    pub fn need_bases(&mut self, ranges: &[Range]) -> Result<(), AllocError>
        requires ends { AllByRecursion EndsInSpace (extents_of ranges.now) }
        requires words { word_count ranges.now < 2 ^ 32 }
        requires sized { IsSized (word_count ranges.now) self.old }
        ensures sized { OnOk result (IsSized (word_count ranges.now) self.new) }
        ensures spreads { OnOk result (Spreads self.old self.new) }
        ensures needed { OnOk result ((place : ℕ) → place < word_count ranges.now → HasBase ranges.now self.new place) }
        ensures sound { (bases : ℕ → Option ℕ) → ((place : ℕ) → AsksFor ranges.now bases place) → IsBacked ranges.now bases self.old
            → OnOk result (IsBacked ranges.now bases self.new) }
    {
        for place in 0..count_in(ranges) {
            self.need_base(ranges, place)?;
        }
        Ok(())
    }

    /// What the word at the address has as its base is needed there, if a code word stands there.
    pub fn need_base_at(&mut self, ranges: &[Range], access: u32) -> Result<(), AllocError>
        requires order { AreCodeExtents (extents_of ranges.now) }
        requires ends { AllByRecursion EndsInSpace (extents_of ranges.now) }
        requires words { word_count ranges.now < 2 ^ 32 }
        requires sized { IsSized (word_count ranges.now) self.old }
        ensures sized { OnOk result (IsSized (word_count ranges.now) self.new) }
        ensures spreads { OnOk result (Spreads self.old self.new) }
        ensures needed { OnOk result ((place : ℕ) → address_of (extents_of ranges.now) place ≡ Some access → HasBase ranges.now self.new place) }
        ensures sound { (bases : ℕ → Option ℕ) → ((place : ℕ) → address_of (extents_of ranges.now) place ≡ Some access → AsksFor ranges.now bases place)
            → IsBacked ranges.now bases self.old → OnOk result (IsBacked ranges.now bases self.new) }
    {
        match place_in(ranges, access) {
            Some(place) => self.need_base(ranges, place),
            None => Ok(()),
        }
    }

    /// Passes the registers that are needed at the word at the place back to those that one way leads to it.
    fn pass_by(
        &mut self,
        ranges: &[Range],
        taken: bool,
        sources: &Sources,
        goal: u32,
        behind: u32,
    ) -> Result<(), AllocError>
        requires ends { AllByRecursion EndsInSpace (extents_of ranges.now) }
        requires words { word_count ranges.now < 2 ^ 32 }
        requires sized { IsSized (word_count ranges.now) self.old }
        requires sources { AreSources ranges.now taken (word_count ranges.now) sources.now.last.items sources.now.before.items }
        requires within { goal < word_count ranges.now }
        ensures sized { OnOk result (IsSized (word_count ranges.now) self.new) }
        ensures spreads { OnOk result (Spreads self.old self.new) }
        ensures passed { OnOk result (IsPassedBy ranges.now taken self.new goal behind) }
        ensures sound { (bases : ℕ → Option ℕ) → AllNeeded ranges.now bases goal behind → IsBacked ranges.now bases self.old → OnOk result (IsBacked ranges.now bases self.new) }
    {
        let mut next = sources.last[goal as usize];
        while let Some(source) = next {
            self.pass_to(ranges, source, behind)?;
            next = sources.before[source as usize];
        }
        Ok(())
    }

    /// Passes what is needed at the word at the place back to all that lead to it.
    fn pass_back(
        &mut self,
        ranges: &[Range],
        falls: &Sources,
        takes: &Sources,
        goal: u32,
    ) -> Result<(), AllocError>
        requires ends { AllByRecursion EndsInSpace (extents_of ranges.now) }
        requires words { word_count ranges.now < 2 ^ 32 }
        requires sized { IsSized (word_count ranges.now) self.old }
        requires falls { AreSources ranges.now false (word_count ranges.now) falls.now.last.items falls.now.before.items }
        requires takes { AreSources ranges.now true (word_count ranges.now) takes.now.last.items takes.now.before.items }
        requires within { goal < word_count ranges.now }
        ensures sized { OnOk result (IsSized (word_count ranges.now) self.new) }
        ensures spreads { OnOk result (Spreads self.old self.new) }
        ensures settled { OnOk result (IsSearched ranges.now self.new goal ⊎ Contains self.new.waiting.places goal) }
        ensures sound { (bases : ℕ → Option ℕ) → IsBacked ranges.now bases self.old → OnOk result (IsBacked ranges.now bases self.new) }
    {
        let behind = self.masks[goal as usize];
        self.pass_by(ranges, false, falls, goal, behind)?;
        self.pass_by(ranges, true, takes, goal, behind)
    }

    /// Goes on from the places that wait until none does.
    pub fn settle(
        &mut self,
        ranges: &[Range],
        falls: &Sources,
        takes: &Sources,
    ) -> Result<(), AllocError>
        requires ends { AllByRecursion EndsInSpace (extents_of ranges.now) }
        requires words { word_count ranges.now < 2 ^ 32 }
        requires sized { IsSized (word_count ranges.now) self.old }
        requires falls { AreSources ranges.now false (word_count ranges.now) falls.now.last.items falls.now.before.items }
        requires takes { AreSources ranges.now true (word_count ranges.now) takes.now.last.items takes.now.before.items }
        requires settled { AreSettled ranges.now self.old }
        ensures sized { OnOk result (IsSized (word_count ranges.now) self.new) }
        ensures settled { OnOk result ((goal : ℕ) → goal < word_count ranges.now → IsSearched ranges.now self.new goal) }
        ensures grown { OnOk result (Grows self.old self.new) }
        ensures sound { (bases : ℕ → Option ℕ) → IsBacked ranges.now bases self.old → OnOk result (IsBacked ranges.now bases self.new) }
    {
        while let Some(goal) = self.waiting.take() {
            self.pass_back(ranges, falls, takes, goal)?;
        }
        Ok(())
    }
}
