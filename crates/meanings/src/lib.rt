// What single numbers mean: each is made into a type of a build's inputs. By functions, not `From`: the types are other crates', and the numbers are those of the
// exported functions.
#![tactic(auto)]

pub mod text; // text.rt: the rule, the options and the place of a text
pub mod property; // property.rt: the kind of sound, the layout, the start, the order of PROP
pub mod diin; // diin.rt: a text of three words, whose artist and title, the order of DIIN
pub mod sound; // sound.rt: where an offset of the index leads
pub mod local; // local.rt: the local chunks
pub mod options; // options.rt: a switch of three positions, the replacement
