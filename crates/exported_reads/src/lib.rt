// No function: demand 3 for callers of the exported build and read (specs/Callers.antt), and what they learn of a refusal (specs/Refusals.antt). The proofs are
// proofs/CallersProof.antt and proofs/RefusalsProof.antt.
#![tactic(auto)]
