// Words for definitions: specs/Words.antt. There is no code here.
#![tactic(auto)]
