ghost use Rattle.std.specs.Prelude.{◌≡◌, ◌<◌, ◌≤◌, length, IfOk, refl};
ghost use Rattle.std.proofs.Common.{◌∙◌};
ghost use Rattle.ae_ports.specs.Fault.{HasCause};
ghost use Rattle.ae_ports.specs.Content.{Writes};
ghost use Rattle.ae_ports.specs.Files.{IsThere, SameOthers, file_told};
ghost use Rattle.ae_ports.specs.Loan.{SameLoan};
ghost use Rattle.ae_ports.specs.scaffolding.Lending.{IsThere-prop, SameOthers-stays, SameOthers-joins};

use crate::{Failed, Sink, Store, Word};

/// A sink that adds to one file of a store, which is lent to it.
#[derive(Drop)]
pub struct StoreSink<'a, S: Store> {
    store: &'a mut S,
    name: &'a Word,
    ghost there: { IsThere (S.told store.now) name.now } by { IsThere-prop (S.told store.now) name.now },
}

impl<'a, S: Store> StoreSink<'a, S> {
    /// A sink that adds to the file of this name.
    pub fn new(store: &'a mut S, name: &'a Word) -> StoreSink<'a, S>
        requires { IsThere (S.told store.old) name.now }
        ensures loan { result.store.ghost_name ≡ store.entry.ghost_name }
        ensures store { result.store.now ≡ store.old }
        ensures name { result.name.now ≡ name.now }
    {
        StoreSink { store, name }
    }
}

impl<S: Store> Sink for StoreSink<'_, S> {
    ghost told = { λ sink. file_told (S.told sink.store.now) sink.name.now };

    ghost faults = { λ sink. S.faults sink.store.now };

    ghost same_rest = { λ one two. SameLoan one.store.ghost_name two.store.ghost_name
        (S.same_rest one.store.now two.store.now) one.name.now two.name.now
        (SameOthers (S.told one.store.now) (S.told two.store.now) one.name.now) };

    /// Adds the whole piece.
    fn write(&mut self, bytes: &[u8]) -> Result<usize, Failed>
        ensures within { IfOk result (λ count. count ≤ length bytes.now) }
        ensures some { IfOk result (λ count. 0 < length bytes.now → 0 < count) }
        ensures content { Writes (file_told (S.told self.old.store.now) self.old.name.now)
            (file_told (S.told self.new.store.now) self.new.name.now) bytes.now result }
        ensures cause { HasCause (S.faults self.old.store.now) (S.faults self.new.store.now) result }
        ensures rest { SameLoan self.old.store.ghost_name self.new.store.ghost_name
            (S.same_rest self.old.store.now self.new.store.now) self.old.name.now self.new.name.now
            (SameOthers (S.told self.old.store.now) (S.told self.new.store.now) self.old.name.now) }
        ensures all { IfOk result (λ count. count ≡ length bytes.now) }
    {
        self.store.add(self.name, bytes)?;
        Ok(bytes.len())
    }

    ghost rest_stays = { λ sink. record {
      loan = refl;
      rest = S.rest_stays sink.store.now;
      named = refl;
      files = SameOthers-stays (S.told sink.store.now) sink.name.now;
    } };

    ghost rest_joins = { λ one two three first second. record {
      loan = first.loan ∙ second.loan;
      rest = S.rest_joins one.store.now two.store.now three.store.now first.rest second.rest;
      named = first.named ∙ second.named;
      files = SameOthers-joins (S.told one.store.now) (S.told two.store.now) (S.told three.store.now)
          one.name.now two.name.now first.named first.files second.files;
    } };
}
