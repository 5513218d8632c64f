//! Open paths, and which record each is a child of.
ghost use Rattle.std.specs.Prelude.{◌≡◌, IfOk};

use lin_bound::Path;
use std::alloc::{AllocError, Global};
use std::marker::Model;

/// A path that a search has still to come to, and the record that it is a child of: a search that proposes multipliers
/// can begin with that record's.
#[derive(Debug, Drop)]
pub struct OpenPath {
    path: Path,
    parent: Option<usize>,
}

impl Model for OpenPath {
    ghost use Rattle.std.specs.Prelude.{List};
    ghost use Rattle.lin_bound.specs.declared.path.Branch.{Branch};

    ghost Value = { List Branch };

    ghost view = { λ one. one.path };
}

impl OpenPath {
    /// An open path, and the number of its parent's record, if that is known.
    pub fn new(path: Path, parent: Option<usize>) -> OpenPath
        ensures { result ≡ path }
    {
        OpenPath { path, parent }
    }

    /// The path.
    pub fn path(&self) -> &Path
        ensures { result.now ≡ self.now }
    {
        &self.path
    }

    /// The path alone.
    pub fn into_path(self) -> Path
        ensures { result ≡ self }
    {
        self.path
    }

    /// The number of its parent's record. There is none for the whole box, and for a path that a search began with.
    pub fn parent(&self) -> Option<usize> {
        self.parent
    }
}

/// The paths that a search begins with, in their order.
pub fn opened(alloc: Global, paths: Vec<Path>) -> Result<Vec<OpenPath>, AllocError>
    ensures { IfOk result (λ left. left.items ≡ paths.items) }
{
    paths
        .into_iter()
        .map(|path| OpenPath::new(path, None))
        .collect(alloc)
}

/// The paths alone, in their order.
pub fn paths_of(alloc: Global, left: Vec<OpenPath>) -> Result<Vec<Path>, AllocError>
    ensures { IfOk result (λ paths. paths.items ≡ left.items) }
{
    left.into_iter().map(|one| one.into_path()).collect(alloc)
}
