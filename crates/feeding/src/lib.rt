// A check that is fed a file byte by byte, as definitions, and what follows from them: fed by lumps it comes to the same, and what it
// keeps of a file is known. There is no code here.

#![tactic(auto)]
