//! The branches that lead from the whole box of a problem to a part of it.
ghost use Rattle.std.specs.Prelude.{◌≡◌, ◌<◌, ◌++◌, ◌∷◌, [], ◌↔◌, IsTrue, length, IfOk, slice_get, Some};
ghost use Rattle.lin_bound.specs.Box.{lower, upper};

use sqlite_items::Items;
use std::alloc::{AllocError, Global};
use std::marker::Model;

/// One half of a box: variable `var` at most `at`, or with `high` at least `at + 1`. It takes 16 bytes: the widest
/// field comes first, since a search keeps very many of them.
#[derive(Clone, Copy, Debug, PartialEq, Eq)]
pub struct Branch {
    pub at: u64,
    pub var: u32,
    pub high: bool,
}

/// Branches one below another, the first at the whole box.
#[derive(Debug, Drop)]
pub struct Path {
    branches: Items<Branch>,
}

impl Model for Path {
    ghost use Rattle.std.specs.Prelude.{List};
    ghost use Rattle.lin_bound.specs.declared.path.Branch.{Branch};

    ghost Value = { List Branch };

    ghost view = { λ path. path.branches };
}

impl Path {
    /// The path of the whole box. It takes no memory.
    pub fn new(alloc: Global) -> Path
        ensures { result ≡ [] }
    {
        Path {
            branches: Items::new(alloc),
        }
    }

    /// The path to the half that the branch keeps. Its memory is that of its branches, and no more.
    pub fn child(&self, alloc: Global, branch: Branch) -> Result<Path, AllocError>
        ensures { IfOk result (λ path. path ≡ self.now ++ branch ∷ []) }
    {
        let mut branches = Vec::with_capacity(alloc, self.len().saturating_add(1))?;
        branches.extend_from_slice(self.branches.as_slice())?;
        branches.push(branch)?;
        Ok(Path {
            branches: Items::from_vec(branches),
        })
    }

    /// The paths to the two halves of its box, split at `var <= at`: the lower half first.
    pub fn halves(&self, alloc: Global, var: u32, at: u64) -> Result<(Path, Path), AllocError>
        ensures lower { IfOk result (λ both. both.0 ≡ self.now ++ lower var at ∷ []) }
        ensures upper { IfOk result (λ both. both.1 ≡ self.now ++ upper var at ∷ []) }
    {
        let (low, high) = (false, true);
        let lower = self.child(alloc, Branch { var, at, high: low })?;
        let upper = self.child(alloc, Branch { var, at, high })?;
        Ok((lower, upper))
    }

    /// The same path once more.
    pub fn copy(&self, alloc: Global) -> Result<Path, AllocError>
        ensures { IfOk result (λ path. path ≡ self.now) }
    {
        Ok(Path {
            branches: Items::from_slice(alloc, self.branches.as_slice())?,
        })
    }

    /// How many branches there are.
    pub fn len(&self) -> usize
        ensures { result ≡ length self.now }
    {
        self.branches.len()
    }

    /// The branch at a place, from the whole box down.
    pub fn branch(&self, place: usize) -> Branch
        requires { place < length self.now }
        ensures { slice_get self.now place ≡ Some result }
    {
        self.branches.as_slice()[place]
    }

    /// Whether the two paths have the same branches.
    pub fn is_same(&self, other: &Path) -> bool
        ensures { IsTrue result ↔ (self.now ≡ other.now) }
    {
        if self.len() != other.len() {
            return false;
        }
        for place in 0..self.len() {
            if self.branch(place) != other.branch(place) {
                return false;
            }
        }
        true
    }
}
