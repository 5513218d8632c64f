//! What a search finds.
ghost use Rattle.std.specs.Prelude.{◌≡◌};
ghost use Rattle.search_core.specs.Search.{value_in};

use cert_tree::Tree;
use lin_bound::Point;

/// What a problem comes to.
#[derive(Debug, Drop)]
pub enum Solved {
    /// A feasible point, its cost, and a certificate that no feasible point's is above.
    Best {
        value: i64,
        point: Point,
        tree: Tree,
    },
    /// No point is feasible, and the tree certifies it.
    NoneExists {
        tree: Tree,
    },
    /// The whole budget was spent, and a leaf is open: the best point so far with its cost, if any, and what no
    /// point's cost is above.
    Undecided {
        best: Option<(i64, Point)>,
        bound: i64,
        tree: Tree,
    },
}

/// The cost of the best point so far.
pub fn best_value(best: &Option<(i64, Point)>) -> Option<i64>
    ensures { result ≡ value_in best.now }
{
    match best {
        Some((value, _)) => Some(*value),
        None => None,
    }
}
