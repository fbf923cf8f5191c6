// Demand 3: any list of reads of one build gives an old reader exactly the recording. The statement is specs/OldReaders.antt, its proof proofs/OldReadersProof.antt;
// there is no function.
#![tactic(auto)]
