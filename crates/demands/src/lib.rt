// What was asked, as one page of records over the definitions of the crates below, each with its
// theorem, and the twelve worked examples among them. No code runs here: what each sentence speaks of
// is defined in the crate that answers for it, and that the code answers so is its contract.
#![tactic(auto)]
