// Terms of exclusive or: sets of variables, normal forms, and the nodes that hold terms in a table. The definitions say
// what terms are and when two of them are equivalent. Nothing here knows tables, substitutions or sessions.
#![tactic(auto)]

pub mod nodes;
pub mod normal;
pub mod sets;
