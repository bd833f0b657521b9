// Laws of tests and of choices between two, which the proofs of all crates share. No code: see specs/.

#![tactic(auto)]
