// The PROXY protocol header of versions 1 and 2. What a whole header is, and demand 3 about it, are in specs/.
#![tactic(auto)]
