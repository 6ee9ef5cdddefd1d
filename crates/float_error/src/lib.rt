// Fractions, and what a float stands for. There is no code here.
#![tactic(auto)]
