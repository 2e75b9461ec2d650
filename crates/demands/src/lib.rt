// No code: the owner's demands, stated in specs/ over the definitions that the contracts cite, and proved in proofs/.
#![tactic(auto)]
