//! What a session works on: a store of its own, or one that others commit to as well.
ghost use Rattle.std.specs.Prelude.{◌≡◌, ℕ, length};
ghost use Rattle.version_store.specs.Histories.{History};
ghost use Rattle.version_store.specs.Vaults.{Commits, IsSound, Looks, LooksAt, holding};

use crate::changes::Commit;
use crate::faults::CommitFault;
use crate::store::{Committed, VaultFault, VersionStore};
use snapshots::Snapshot;
use std::alloc::{AllocError, Global};

/// A history of commits. Whoever holds it commits to it and looks at its versions; between two
/// moments others may have added commits.
pub trait Vault {
    /// The commits that it has seen.
    ghost held: { Self → History };

    /// How many of them were made through it.
    ghost own: { Self → ℕ };

    /// How many parts of a ledger it holds, a number that no call changes.
    ghost stake: { Self → ℕ };

    /// A commit joins the history, or is handed back with its first fault, or because memory is
    /// out.
    fn commit(&mut self, alloc: Global, commit: Commit) -> Result<Committed, (CommitFault, Commit)>
        ensures answers { Commits (holding held own stake self.old)
            (holding held own stake self.new) commit result }
        ensures sound { IsSound (held self.new) };

    /// The last version.
    fn snapshot(&mut self) -> Result<Snapshot, AllocError>
        ensures looks { Looks (holding held own stake self.old)
            (holding held own stake self.new) result }
        ensures sound { IsSound (held self.new) };

    /// A version, if it is kept.
    fn snapshot_at(&mut self, version: u64) -> Result<Snapshot, VaultFault>
        ensures looks { LooksAt (holding held own stake self.old)
            (holding held own stake self.new) version result }
        ensures sound { IsSound (held self.new) };
}

/// A vault that nobody else commits to.
#[derive(Drop)]
pub struct SoloVault {
    pub store: VersionStore,
}

impl Vault for SoloVault {
    ghost held = { λ vault. vault.store };

    ghost own = { λ vault. length vault.store };

    ghost stake = { λ vault. 0 };

    fn commit(
        &mut self,
        alloc: Global,
        commit: Commit,
    ) -> Result<Committed, (CommitFault, Commit)> {
        let result = self.store.commit(alloc, commit);
        check_sound(&self.store);
        result
    }

    fn snapshot(&mut self) -> Result<Snapshot, AllocError> {
        check_sound(&self.store);
        self.store.snapshot()
    }

    fn snapshot_at(&mut self, version: u64) -> Result<Snapshot, VaultFault> {
        check_sound(&self.store);
        self.store.snapshot_at(version)
    }
}

/// What a store holds is sound.
pub(crate) fn check_sound(store: &VersionStore)
    ensures { IsSound store.now }
{
    let _version = store.version();
}
