// Document 01's cases P1 to P12, and some of both kinds, as one table of calls in bytes, run by the definitions that the contracts cite.
#![tactic(auto)]
