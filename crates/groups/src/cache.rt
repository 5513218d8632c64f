//! Groups that were asked before.
ghost use Rattle.std.specs.Prelude.{◌≡◌, [], false, Some, IfOk, OnErr, MatchResult};
ghost use Rattle.std.specs.List.{list_any};
ghost use Rattle.groups.specs.Caches.{AreOfOne, IsAdded, IsFoundAt, is_of};
ghost use Rattle.groups.specs.Groups.{CanBeGrouped, IsFaultOf, groups_named};
ghost use Rattle.groups.specs.Kept.{entry_kept};

use crate::fault::GroupFault;
use crate::grouping::groups_of;
use crate::pairs::{Pairs, make_room, put};
use indexmap::IndexMap;
use quadtree::Group;
use snapshots::Snapshot;
use std::alloc::{AllocError, Global};
use std::marker::Model;

/// The groups of tables of versions, of which at most `MAX_KEPT` are kept. Contracts see their list, the oldest first.
#[derive(Drop)]
pub struct GroupCache {
    kept: Pairs,
}

impl Model for GroupCache {
    ghost use Rattle.std.specs.Prelude.{◌≤◌, List, length, map};
    ghost use Rattle.groups.specs.Kept.{Kept, entry_kept};
    ghost use Rattle.groups.specs.declared.limits.TheConstants.{MAX_KEPT};

    ghost Value = { List Kept };

    ghost view = { λ cache. map entry_kept cache.kept.entries };

    ghost invariant = { λ cache. length cache.kept.entries ≤ MAX_KEPT };
}

impl GroupCache {
    ghost use Rattle.std.specs.Borrow.{sem};
    ghost use Rattle.groups.specs.Ends.{Ends};

    /// Nothing is kept. It takes no memory.
    pub fn new(alloc: Global) -> GroupCache
        ensures { result ≡ [] }
    {
        GroupCache {
            kept: IndexMap::new(alloc),
        }
    }

    /// The groups of a table of a version, as `groups_of` gives them. They are kept, in place of those that were kept
    /// first if there are `MAX_KEPT`. An error changes nothing.
    pub fn get(
        &mut self,
        alloc: Global,
        snapshot: &Snapshot,
        table: &[u8],
    ) -> Result<&[Group], GroupFault>
        requires one { AreOfOne self.old snapshot.now }
        requires cut { CanBeGrouped snapshot.now.tables }
        ensures* keeps { sem 𝓛 (Ends self.entry table.now snapshot.now result) }
        ensures same { MatchResult result
            (λ groups. groups_named table.now snapshot.now.tables ≡ Some groups.now)
            (IsFaultOf (groups_named table.now snapshot.now.tables)) }
    {
        let place = self.find(alloc, snapshot, table)?;
        Ok(self.kept[place].as_slice())
    }

    /// The place of the groups of a table of a version, which are kept from now on.
    fn find(
        &mut self,
        alloc: Global,
        snapshot: &Snapshot,
        table: &[u8],
    ) -> Result<usize, GroupFault>
        requires one { AreOfOne self.old snapshot.now }
        requires cut { CanBeGrouped snapshot.now.tables }
        ensures { MatchResult result
            (λ place. IsFoundAt self.old table.now snapshot.now place self.new)
            (λ fault. IsFaultOf (groups_named table.now snapshot.now.tables) fault
            × (self.new ≡ self.old)) }
    {
        if snapshot.partition(table).is_none() {
            return Err(GroupFault::NoPartition);
        }
        let Ok(name) = Vec::from_slice(alloc, table) else {
            return Err(GroupFault::Memory(AllocError));
        };
        let key = (name, snapshot.version);
        if let Some(place) = self.kept.get_index_of(&key) {
            return Ok(place);
        }
        let groups = groups_of(alloc, snapshot, table)?;
        match self.add(key, groups) {
            Ok(place) => Ok(place),
            Err(error) => Err(GroupFault::Memory(error)),
        }
    }

    /// Keeps the groups of a table of a version that isn't kept, and answers their place.
    fn add(&mut self, key: (Vec<u8>, u64), groups: Vec<Group>) -> Result<usize, AllocError>
        requires { list_any (is_of key.0.items key.1) self.old ≡ false }
        ensures ok { IfOk result (λ place.
            IsAdded self.old (entry_kept (key, groups)) place self.new) }
        ensures err { OnErr result (self.new ≡ self.old) }
    {
        self.kept.reserve(1)?;
        make_room(&mut self.kept);
        let place = self.kept.len();
        put(&mut self.kept, key, groups);
        Ok(place)
    }
}

#[cfg(test)]
mod tests;
