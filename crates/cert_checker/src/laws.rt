//! The law of what is wrong with trees.
ghost use Rattle.cert_checker.specs.Faults.{FirstFaultIsOne};

/// A tree that is no certificate has one first place, with one reason.
pub fn first_fault_is_one()
    ensures { FirstFaultIsOne }
{}
