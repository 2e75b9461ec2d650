// No code: the owner's demands, read for the pair of the board, as theorems over the definitions. See specs/.
#![tactic(auto)]
