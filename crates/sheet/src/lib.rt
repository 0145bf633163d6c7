// The sheet: specs/Sheet.antt and specs/Ledger.antt. There is no code here.
#![tactic(auto)]
