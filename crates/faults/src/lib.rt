// Faults of lent lists, given the rule of texts and the range: names of caller chunks (4, 5), bytes of texts (31, 33), given markers (32, 33). Whether 31 to 33
// count is said in `rules`; 4 and 5 always do. Faults of comments are in `comment_faults`.
#![tactic(auto)]

pub mod caller; // caller.rt: 4 and 5, the names of caller chunks
pub mod text_bytes; // text_bytes.rt: bytes that no text has (31, 33)
pub mod marks; // marks.rt: 32 and 33, given markers
