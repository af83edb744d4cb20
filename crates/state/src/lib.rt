// The state file, over lent bytes: the fresh state of a site, whether a state is well formed, and the ways between a state and the longer one of before.
#![tactic(auto)]

pub mod fresh; // fresh.rt: the fresh state
pub mod well; // well.rt: whether a state is well formed, or a longer one
pub mod across; // across.rt: from the longer state to the shorter one, and back
