// The theory of loops: core, cyclings, parts, settling, rings. There is no code here: see specs/.

#![tactic(auto)]
