// The laws of the notation. There is no code here: see specs/.

#![tactic(auto)]
