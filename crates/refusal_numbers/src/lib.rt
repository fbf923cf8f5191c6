// No function: which numbers a refusal has.
#![tactic(auto)]
