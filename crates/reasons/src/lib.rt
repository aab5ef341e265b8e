// What a reason for a refusal says of its file. There is no code in this crate.

#![tactic(auto)]
