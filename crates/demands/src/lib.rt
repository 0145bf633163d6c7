// The demands. There is no code here.
#![tactic(auto)]
