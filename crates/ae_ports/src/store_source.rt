ghost use Rattle.std.specs.Prelude.{◌≡◌, ◌≤◌, length, IfOk, refl};
ghost use Rattle.std.proofs.Common.{◌∙◌};
ghost use Rattle.ae_ports.specs.Fault.{HasCause};
ghost use Rattle.ae_ports.specs.Content.{Reads};
ghost use Rattle.ae_ports.specs.Files.{IsThere, SameFiles, left_told};
ghost use Rattle.ae_ports.specs.Loan.{SameLoan};
ghost use Rattle.ae_ports.specs.scaffolding.Lending.{IsThere-prop, SameFiles-stays, SameFiles-joins};

use crate::{Failed, Source, Store, Word};

/// A source that reads one file of a store, which is lent to it, from the file's start.
///
/// It tells the bytes left where the store tells its files and the file is shorter than 2^64 bytes: a store can't be
/// asked for what stands behind those.
#[derive(Drop)]
pub struct StoreSource<'a, S: Store> {
    store: &'a mut S,
    name: &'a Word,
    at: u64,
    ghost there: { IsThere (S.told store.now) name.now } by { IsThere-prop (S.told store.now) name.now },
}

impl<'a, S: Store> StoreSource<'a, S> {
    /// A source of the bytes of the file of this name.
    pub fn new(store: &'a mut S, name: &'a Word) -> StoreSource<'a, S>
        requires { IsThere (S.told store.old) name.now }
        ensures loan { result.store.ghost_name ≡ store.entry.ghost_name }
        ensures store { result.store.now ≡ store.old }
        ensures name { result.name.now ≡ name.now }
        ensures start { result.at ≡ 0 }
    {
        StoreSource { store, name, at: 0 }
    }
}

impl<S: Store> Source for StoreSource<'_, S> {
    ghost told = { λ source. left_told (S.told source.store.now) source.name.now source.at };

    ghost faults = { λ source. S.faults source.store.now };

    ghost same_rest = { λ one two. SameLoan one.store.ghost_name two.store.ghost_name
        (S.same_rest one.store.now two.store.now) one.name.now two.name.now
        (SameFiles (S.told one.store.now) (S.told two.store.now)) };

    /// Moves what the store gives from the offset on that was reached. The largest u64 stands still.
    fn read(&mut self, buf: &mut [u8]) -> Result<usize, Failed> {
        let count = self.store.get(self.name, self.at, buf)?;
        self.at = self.at.saturating_add(count as u64);
        Ok(count)
    }

    ghost rest_stays = { λ source. record {
      loan = refl;
      rest = S.rest_stays source.store.now;
      named = refl;
      files = SameFiles-stays (S.told source.store.now);
    } };

    ghost rest_joins = { λ one two three first second. record {
      loan = first.loan ∙ second.loan;
      rest = S.rest_joins one.store.now two.store.now three.store.now first.rest second.rest;
      named = first.named ∙ second.named;
      files = SameFiles-joins (S.told one.store.now) (S.told two.store.now) (S.told three.store.now)
          first.files second.files;
    } };
}
