//! A vault over memory to which others commit, for tests.
ghost use Rattle.std.specs.Prelude.{◌≡◌, [], IfOk};
ghost use Rattle.version_store.specs.Vaults.{Commits, IsSound, Looks, LooksAt, holding};
ghost use Rattle.version_store.specs.Visits.{IsVisit};

use crate::changes::Commit;
use crate::faults::CommitFault;
use crate::store::{Committed, VaultFault, VersionStore};
use crate::vault::{Vault, check_sound};
use snapshots::Snapshot;
use std::alloc::{AllocError, Global};
use std::collections::VecDeque;
use std::marker::Model;

/// A vault to which others commit at chosen calls.
#[derive(Drop)]
pub struct MemVault {
    alloc: Global,
    store: VersionStore,
    own: u64,
    stake: u64,
    visits: VecDeque<Option<Commit>>,
}

impl Model for MemVault {
    ghost use Rattle.std.specs.Prelude.{◌≤◌, length};
    ghost use Rattle.std.specs.Coded.{codes};
    ghost use Rattle.paql_ast.specs.contracts.conditions.Pred as pred;
    ghost use Rattle.version_store.specs.Visits.{Visited};

    ghost Value = { Visited };

    ghost coded = { Prim.hlevel (codes, pred.the_row.coded) };

    ghost view = { λ v. record {
      held = v.store;
      own = v.own;
      stake = v.stake;
      visits = v.visits.items;
    } };

    ghost invariant = { λ v. v.own ≤ length v.store };
}

impl MemVault {
    /// A vault without a commit. Before each of the next calls others make the next of these
    /// visits, of which some commit.
    pub fn new(
        alloc: Global,
        stake: u64,
        visits: Vec<Option<Commit>>,
    ) -> Result<MemVault, AllocError>
        ensures { IfOk result (λ vault. vault
            ≡ record { held = []; own = 0; stake = stake; visits = visits.items }) }
    {
        let store = VersionStore::new(alloc)?;
        let visits = VecDeque::from_vec(visits);
        Ok(MemVault {
            alloc,
            store,
            own: 0,
            stake,
            visits,
        })
    }

    /// The store as it is, without a visit.
    pub fn store(&self) -> &VersionStore
        ensures { result.now ≡ self.now.held }
    {
        &self.store
    }

    /// How many commits were made through the vault.
    pub fn own(&self) -> u64
        ensures { result ≡ self.now.own }
    {
        self.own
    }

    /// The next visit. Others are refused as the vault itself is.
    fn visit(&mut self)
        ensures { IsVisit self.old self.new }
    {
        if let Some(Some(commit)) = self.visits.pop_front() {
            let _result = self.store.commit(self.alloc, commit);
        }
    }
}

impl Vault for MemVault {
    ghost held = { λ vault. vault.held };

    ghost own = { λ vault. vault.own };

    ghost stake = { λ vault. vault.stake };

    fn commit(
        &mut self,
        alloc: Global,
        commit: Commit,
    ) -> Result<Committed, (CommitFault, Commit)> {
        self.visit();
        check_sound(&self.store);
        let result = self.store.commit(alloc, commit);
        if result.is_ok() {
            self.own += 1;
        }
        check_sound(&self.store);
        result
    }

    fn snapshot(&mut self) -> Result<Snapshot, AllocError> {
        self.visit();
        check_sound(&self.store);
        self.store.snapshot()
    }

    fn snapshot_at(&mut self, version: u64) -> Result<Snapshot, VaultFault> {
        self.visit();
        check_sound(&self.store);
        self.store.snapshot_at(version)
    }
}
