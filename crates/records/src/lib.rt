// Laws of the loops over the array of a record, in proofs/, which the proofs of crate capi cite. No code.
#![tactic(auto)]
