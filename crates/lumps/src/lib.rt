// A check that is fed a file in lumps, as definitions: its answer is that of the joined file. There is no code here.

#![tactic(auto)]
