// Laws of the definitions, for proofs to cite. There is no code here.
#![tactic(auto)]
