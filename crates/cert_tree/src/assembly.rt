//! How what a search recorded becomes one whole tree.
ghost use Rattle.std.specs.Prelude.{◌≡◌, ◌++◌, ◌∷◌, [], ◌<◌, IfOk, length, reverse};
ghost use Rattle.std.specs.List.{HoldsAt};
ghost use Rattle.cert_tree.specs.Records.{IsBalanced};
ghost use Rattle.cert_tree.specs.Trees.{pieces_of, IsLaid, IsAssembled};
ghost use Rattle.cert_tree.specs.Pieces.{path_of, node_of, children_in, IsAt, HasPath, Fits};

use crate::nodes::{Tree, TreeNode};
use crate::records::{Act, Piece, Record};
use lin_bound::Path;
use sqlite_items::Items;
use std::alloc::{AllocError, Global};
use std::cmp::Ordering;

/// Where the first path is in preorder against the second: a path before those below it, and lower halves before
/// upper ones.
fn preorder(one: &Path, other: &Path) -> Ordering {
    for place in 0..one.len().min(other.len()) {
        let (first, second) = (one.branch(place).high, other.branch(place).high);
        if first != second {
            return first.cmp(&second);
        }
    }
    one.len().cmp(&other.len())
}

/// Where a piece is.
fn path_of(piece: &Piece) -> &Path
    ensures { result.now ≡ path_of piece.now }
{
    match piece {
        Piece::Done(record) => &record.path,
        Piece::Left(path) => path,
    }
}

/// The last place of a piece at this path. Where the first piece in preorder comes last, that is where the search
/// begins.
fn place_of(pieces: &[Piece], path: &Path) -> usize
    requires { HasPath pieces.now path.now }
    ensures within { result < length pieces.now }
    ensures found { HoldsAt (IsAt path.now) pieces.now result }
{
    let mut place = pieces.len();
    while place > 0 {
        place -= 1;
        if path_of(&pieces[place]).is_same(path) {
            return place;
        }
    }
    unreachable!()
}

/// The node of a piece. What it leaves to do goes onto the stack, the lower half on top.
fn node_of(alloc: Global, piece: Piece, pending: &mut Vec<Path>) -> Result<TreeNode, AllocError>
    ensures node { IfOk result (λ node. node ≡ node_of piece) }
    ensures pending { IfOk result (λ _. pending.new.items ≡
        pending.old.items ++ reverse (children_in piece)) }
{
    let Piece::Done(record) = piece else {
        return Ok(TreeNode::Open);
    };
    let Record { path, act } = record;
    match act {
        Act::Closed(mult) => Ok(TreeNode::Leaf(mult)),
        Act::Split { var, at, mult } => {
            let (lower, upper) = path.halves(alloc, var, at)?;
            pending.push(upper)?;
            pending.push(lower)?;
            Ok(TreeNode::Split { var, at, mult })
        }
    }
}

/// The records and the left paths in one list.
fn gather(alloc: Global, records: Vec<Record>, left: Vec<Path>) -> Result<Vec<Piece>, AllocError>
    ensures { IfOk result (λ pieces. pieces.items ≡ pieces_of records.items left.items) }
{
    records
        .into_iter()
        .map(|record| Piece::Done(record))
        .chain(left.into_iter().map(|path| Piece::Left(path)))
        .collect(alloc)
}

/// The tree of the pieces. Each path that is still to come has its piece among them; where they are in preorder with
/// the first last, it is the last one.
fn lay(alloc: Global, mut pieces: Vec<Piece>) -> Result<Tree, AllocError>
    requires { Fits ([] ∷ []) pieces.items }
    ensures { IfOk result (λ tree. IsLaid pieces.items tree) }
{
    let mut pending = Vec::new(alloc);
    pending.push(Path::new(alloc))?;
    let mut nodes = Items::new(alloc);
    while let Some(path) = pending.pop() {
        let place = place_of(&pieces, &path);
        let piece = pieces.remove(place);
        let node = node_of(alloc, piece, &mut pending)?;
        nodes.push(node)?;
    }
    Ok(Tree::new(nodes))
}

/// The tree that has each record at its path, an open leaf at each left path, and no other node. It takes O(n log n)
/// comparisons of paths for n records and left paths of one tree.
pub fn assemble(alloc: Global, records: Vec<Record>, left: Vec<Path>) -> Result<Tree, AllocError>
    requires { IsBalanced records.items left.items }
    ensures { IfOk result (λ tree. IsAssembled records.items left.items tree) }
{
    let mut pieces = gather(alloc, records, left)?;
    pieces.sort_by(|one, other| preorder(path_of(other), path_of(one)))?;
    lay(alloc, pieces)
}
