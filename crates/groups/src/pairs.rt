//! The groups that are kept, by the names of tables and by versions.
ghost use Rattle.std.specs.Prelude.{◌≡◌, ◌<◌, ◌≤◌, [], ◌∷◌, ◌++◌, false, map};
ghost use Rattle.std.specs.List.{list_any};
ghost use Rattle.indexmap.specs.IndexMap.{spare};
ghost use Rattle.groups.specs.Caches.{is_of, with_room};
ghost use Rattle.groups.specs.Kept.{entry_kept};

use crate::limits::MAX_KEPT;
use indexmap::IndexMap;
use quadtree::Group;

/// Groups by the name of a table and a version.
pub(crate) type Pairs = IndexMap<(Vec<u8>, u64), Vec<Group>>;

/// Drops the oldest groups if no more can be kept.
pub(crate) fn make_room(pairs: &mut Pairs)
    ensures entries { pairs.new.entries ≡ with_room pairs.old.entries }
    ensures spare { spare pairs.old ≤ spare pairs.new }
{
    if pairs.len() >= MAX_KEPT {
        pairs.shift_remove_index(0);
    }
}

/// Keeps groups that aren't kept yet, last of all.
pub(crate) fn put(pairs: &mut Pairs, key: (Vec<u8>, u64), groups: Vec<Group>)
    requires room { 0 < spare pairs.old }
    requires absent { list_any (is_of key.0.items key.1)
        (map entry_kept pairs.old.entries) ≡ false }
    ensures { pairs.new.entries ≡ pairs.old.entries ++ (key, groups) ∷ [] }
{
    pairs.insert(key, groups).unwrap();
}
