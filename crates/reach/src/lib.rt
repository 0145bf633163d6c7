// Every sound state is reached, but for its pins. There is no code here.
#![tactic(auto)]
