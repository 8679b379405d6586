// Theory alone, no code: the order that conflicts leave the letters of a word. Numberings in which of two dependent
// letters the earlier has the smaller number, and which letters stay before which.

#![tactic(auto)]
