// A5's curve as numbers: its grammar's text, the table that the compiler makes of it, and what is true of
// that table: every triple in bounds has one place in it, which the lookup finds. No code runs here; the
// operations that follow the table are `lsystem`'s, and tables of any grammar are `tables`'s.
#![tactic(auto)]
