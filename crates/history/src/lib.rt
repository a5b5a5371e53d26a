// Nothing to run: the claim about every list of calls, over the contracts of the protector's entries, is in specs and proofs.
#![tactic(auto)]
