// No code: the definitions and laws of specs/ that every crate cites.
#![tactic(auto)]
