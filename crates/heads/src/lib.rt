// The head of a session, a plain record of counts and marks, and beside it the trail of the bindings that were made. They
// know nothing of the memory that a session works on.
#![tactic(auto)]

pub mod head;
pub mod trail;
