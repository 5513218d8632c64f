//! What a session keeps of a query that it answered.
ghost use Rattle.std.specs.Prelude.{◌≡◌, IfOk};
ghost use Rattle.cert_text.specs.Certs.{cert_text};
ghost use Rattle.query_answer.specs.Kept.{kept_cert};

use cert_text::{Claim, write_lines};
use cert_tree::Tree;
use lin_bound::Problem;
use sqlite_items::Items;
use std::alloc::{AllocError, Global};

/// The program of the query, what its answer claims of the program, the package that was shown, and the tree that
/// shows the claim: a certificate, or a partial one if the answer is undecided.
#[derive(Debug, Drop)]
pub struct Kept {
    pub problem: Problem,
    pub claim: Claim,
    pub pairs: Items<(u64, u64)>,
    pub tree: Tree,
}

impl Kept {
    /// The text of the certificate that is kept.
    pub fn text(&self, alloc: Global) -> Result<Vec<u8>, AllocError>
        ensures { IfOk result (λ text. text.items ≡ cert_text
            (kept_cert self.now.problem self.now.claim self.now.pairs self.now.tree)) }
    {
        let vars = self.problem.variables() as u32;
        let rows = self.problem.row_count() as u32;
        let pairs = self.pairs.as_slice();
        let mut out = Vec::new(alloc);
        write_lines(&mut out, vars, rows, self.claim, pairs, self.tree.nodes())?;
        Ok(out)
    }
}
