//! Laws of groups, for those who read the definitions.
ghost use Rattle.groups.specs.Laws.{CachesStayRight, GetsFromScratch, TablesAreGrouped};

/// Each row of a table is in exactly one group, and a group has at most so many rows, all within the radius of its
/// representative.
pub fn tables_are_grouped()
    ensures { TablesAreGrouped }
{}

/// A cache that is right for a history is right for each longer one.
pub fn caches_stay_right()
    ensures { CachesStayRight }
{}

/// Whatever is asked of a new cache over one history, each answer is as if nothing were kept.
pub fn gets_from_scratch()
    ensures { GetsFromScratch }
{}
