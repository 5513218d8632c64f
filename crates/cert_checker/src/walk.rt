//! A walk over the places of a tree in preorder. It keeps one box, which it cuts and mends.
ghost use Rattle.std.specs.Prelude.{◌≡◌, ◌<◌, ◌∷◌, [], ◌++◌, IfOk, IfNone, length};
ghost use Rattle.lin_bound.specs.Box.{whole_box, half, lower, Splits, IsRegion};
ghost use Rattle.cert_checker.specs.Walk.{cut_of, undone, Undoes, others, path_to, WentOn, NextIs};
ghost use Rattle.cert_checker.specs.Faults.{IsDivided};

use cert_tree::TreeNode;
use lin_bound::{Branch, Path, Problem, Region, box_of};
use sqlite_items::Items;
use std::alloc::{AllocError, Global};

/// A half that the walk went into, and the end of its variable that this changed.
#[derive(Clone, Copy, Debug, PartialEq, Eq)]
pub(crate) struct Cut {
    branch: Branch,
    kept: u64,
}

/// The box that the walk is at, and the cuts that made it of the whole one.
#[derive(Debug, Drop)]
pub(crate) struct Walk {
    region: Region,
    cuts: Vec<Cut>,
}

/// The cut to a half of a box.
fn cut_of(region: &Region, branch: Branch) -> Cut
    requires same { length region.now.low ≡ length region.now.high }
    requires splits { Splits branch region.now }
    ensures { result ≡ cut_of branch region.now }
{
    let variable = branch.var as usize;
    if branch.high {
        let kept = region.low.as_slice()[variable];
        return Cut { branch, kept };
    }
    let kept = region.high.as_slice()[variable];
    Cut { branch, kept }
}

/// Mends a box after a cut.
fn undo(region: &mut Region, cut: Cut)
    requires low { cut.branch.var < length region.old.low }
    requires high { cut.branch.var < length region.old.high }
    ensures { region.new ≡ undone cut region.old }
{
    let variable = cut.branch.var as usize;
    if cut.branch.high {
        region.low.set(variable, cut.kept);
    } else {
        region.high.set(variable, cut.kept);
    }
}

/// Goes into a half of the box.
fn go_into(region: &mut Region, cuts: &mut Vec<Cut>, branch: Branch) -> Result<(), AllocError>
    requires same { length region.old.low ≡ length region.old.high }
    requires splits { Splits branch region.old }
    ensures region { IfOk result (λ _. region.new ≡ half branch region.old) }
    ensures cuts { IfOk result (λ _. cuts.new.items ≡
        cuts.old.items ++ cut_of branch region.old ∷ []) }
{
    let cut = cut_of(region, branch);
    cuts.push(cut)?;
    region.narrow(branch);
    Ok(())
}

/// Goes to the next place after one with nothing below it, and says whether there is one.
fn next_place(region: &mut Region, cuts: &mut Vec<Cut>) -> Result<bool, AllocError>
    requires { Undoes cuts.old.items region.old }
    ensures { IfOk result (λ more.
        NextIs more (others cuts.old.items region.old) cuts.new.items region.new) }
{
    while let Some(cut) = cuts.pop() {
        undo(region, cut);
        if !cut.branch.high {
            let Branch { at, var, .. } = cut.branch;
            let high = true;
            go_into(region, cuts, Branch { at, var, high })?;
            return Ok(true);
        }
    }
    Ok(false)
}

impl Walk {
    /// A walk that is at the whole box.
    pub(crate) fn new(alloc: Global, problem: &Problem) -> Result<Walk, AllocError>
        ensures region { IfOk result (λ walk. walk.region ≡ whole_box problem.now) }
        ensures cuts { IfOk result (λ walk. walk.cuts.items ≡ []) }
        ensures legal { IfOk result (λ walk. IsRegion problem.now walk.region) }
    {
        Ok(Walk {
            region: box_of(alloc, problem, &Path::new(alloc))?,
            cuts: Vec::new(alloc),
        })
    }

    /// The box of the place that the walk is at.
    pub(crate) fn region(&self) -> &Region
        ensures { result.now ≡ self.now.region }
    {
        &self.region
    }

    /// The halves that lead to the place that the walk is at.
    pub(crate) fn path(&self, alloc: Global) -> Result<Items<bool>, AllocError>
        ensures { IfOk result (λ path. path ≡ path_to self.now.cuts.items) }
    {
        let mut halves = Items::new(alloc);
        for cut in &self.cuts {
            halves.push(cut.branch.high)?;
        }
        Ok(halves)
    }

    /// Goes to the next place after that of a node, and says whether there is one.
    pub(crate) fn go_on(&mut self, node: &TreeNode) -> Result<bool, AllocError>
        requires undoes { Undoes self.old.cuts.items self.old.region }
        requires divided { IsDivided self.old.region node.now }
        ensures { IfOk result (λ more. WentOn node.now more
            self.old.cuts.items self.old.region self.new.cuts.items self.new.region) }
    {
        let TreeNode::Split { var, at, .. } = node else {
            return next_place(&mut self.region, &mut self.cuts);
        };
        let (var, at, high) = (*var, *at, false);
        go_into(&mut self.region, &mut self.cuts, Branch { at, var, high })?;
        Ok(true)
    }
}
