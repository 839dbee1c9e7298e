// Rows and histories as bytes, 16 a row, and tables of 128 rows: definitions and laws. The functions stand in `row_bytes` and `row_tables`.
#![tactic(auto)]

// A row for each of the places 0 to 127, laid out as in a history that a caller lends.
pub type Rows = [u8; 2048];
