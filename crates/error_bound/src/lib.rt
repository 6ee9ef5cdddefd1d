// Demand 3, proved of the definitions. There is no code here.
#![tactic(auto)]
