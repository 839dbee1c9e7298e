// Fetching one record after another until the whole is settled: that the number told is enough and needed, and the game of document 02, [6],
// played out. The functions stand in `minimax`.
#![tactic(auto)]
