// Document 01's examples (specs/Examples.antt), and the line programs of pdb's own tests (specs/Programs.antt), proved of the definitions. There
// is no code here.
#![tactic(auto)]
