// Laws of the definitions in the crate spec, and the proofs of its demands: specs/DemandsMet.antt,
// specs/CasesHold.antt.

#![tactic(auto)]
