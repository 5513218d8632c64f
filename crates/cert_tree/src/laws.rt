//! What trees show, each proved for every problem.
ghost use Rattle.cert_tree.specs.Counts.{NodesAreFew};
ghost use Rattle.cert_tree.specs.Laws.{CertifiedIsBest, CertifiedIsEmpty, PartialBounds, MostLeftIsGreatest, AssembledCertifies, AssembledPartly, AssembledLegal};

use lin_bound::{closed_holds_none, halves_cover, weak_duality};

/// No feasible point is greater than a feasible point whose value a tree certifies.
pub fn certified_is_best()
    ensures { CertifiedIsBest }
{
    halves_cover();
    closed_holds_none();
}

/// No point is feasible where a tree certifies that there is no value.
pub fn certified_is_empty()
    ensures { CertifiedIsEmpty }
{
    halves_cover();
    closed_holds_none();
}

/// No feasible point is greater than what a partial certificate leaves possible.
pub fn partial_bounds()
    ensures { PartialBounds }
{
    halves_cover();
    closed_holds_none();
    weak_duality();
}

/// What a partial certificate leaves possible is the greatest of the value and the tops of its open leaves.
pub fn most_left_is_greatest()
    ensures { MostLeftIsGreatest }
{}

/// Where nothing is left and each record is right, the tree made of them is a certificate.
pub fn assembled_certifies()
    ensures { AssembledCertifies }
{}

/// If some path is left and each record is right, for whatever value was seen for it, the tree is a partial
/// certificate of as many nodes as there are records.
pub fn assembled_partly()
    ensures { AssembledPartly }
{}

/// Where the multipliers of each record are legal, so are those of each node of the tree made of them.
pub fn assembled_legal()
    ensures { AssembledLegal }
{}

/// A tree whose leaves are all boxes of the problem has fewer than twice as many nodes as there are points.
pub fn nodes_are_few()
    ensures { NodesAreFew }
{
    halves_cover();
}
