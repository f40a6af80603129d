// Tables of numbers, as arrays and as the arms of a `match`: what a look in such a table answers is proved here once,
// for any count of numbers, by one computed test against a definition. No code runs here; the tables are those of
// the crates above, and facts about tables in general are `whole`'s.
#![tactic(auto)]
