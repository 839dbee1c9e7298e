// The lines of the program's output, as bytes. The functions stand in `lines`.
#![tactic(auto)]
