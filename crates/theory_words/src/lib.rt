// The theory of words over an alphabet whose letters have undos and conflicts. There is no code here: see specs/.

#![tactic(auto)]
