// No code: what document 02 asks for, stated in specs/ over the definitions that the contracts cite, and proved in proofs/.
#![tactic(auto)]
