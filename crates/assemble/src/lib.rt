// A build over rows of words: the verdict on its inputs, then header and trailer into the buffers.
#![tactic(auto)]

pub mod build;
