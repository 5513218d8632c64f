//! The versions that are kept.
ghost use Rattle.std.specs.Prelude.{◌≡◌, ◌<◌, ◌≤◌, ◌++◌, ◌∷◌, ◌+◌, [], drop, length, slice_index_or, IfSome};
ghost use Rattle.std.specs.Vec.{vec_len, vec_capacity};
ghost use Rattle.version_store.specs.Keeping.{fresh_in};

use snapshots::Snapshot;

/// A version that is kept, and how many of its entries its commit wrote.
#[derive(Drop)]
pub(crate) struct Kept {
    pub(crate) snapshot: Snapshot,
    pub(crate) fresh: u64,
}

/// How many entries the commits of these versions wrote, if that is a number of 64 bits.
pub(crate) fn fresh_in(kept: &[Kept]) -> Option<u64>
    ensures { IfSome result (λ count. count ≡ fresh_in kept.now) }
{
    let mut count = 0u64;
    for one in kept {
        count = count.checked_add(one.fresh)?;
    }
    Some(count)
}

/// The version at this place.
pub(crate) fn one_at(kept: &[Kept], place: usize) -> &Kept
    requires { place < length kept.now }
    ensures { result.now ≡ slice_index_or kept.now place result.now }
{
    &kept[place]
}

/// The versions after the one at this place.
pub(crate) fn after(kept: &[Kept], place: usize) -> &[Kept]
    requires { place < length kept.now }
    ensures { result.now ≡ drop (place + 1) kept.now }
{
    &kept[place + 1..]
}

/// The first of a list go.
pub(crate) fn drop_first<T: Drop>(list: &mut Vec<T>, count: usize)
    requires { count ≤ length list.old.items }
    ensures items { list.new.items ≡ drop count list.old.items }
    ensures capacity { vec_capacity list.new ≡ vec_capacity list.old }
{
    let left = list.as_slice().len() - count;
    list.rotate_left(count);
    list.truncate(left);
}

/// Appends to a list that has room.
pub(crate) fn put<T: Drop>(list: &mut Vec<T>, item: T)
    requires { vec_len list.old < vec_capacity list.old }
    ensures { list.new.items ≡ list.old.items ++ item ∷ [] }
{
    let _ = list.push(item);
}
