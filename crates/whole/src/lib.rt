// Laws with no subject of their own: whole numbers with a sign, powers of four and digits, lists,
// and tables that are tested by computation. No code runs here; the crates above cite the laws.
#![tactic(auto)]
