#![tactic(auto)]

// Check and Write as definitions over bytes: there is no code here, only what the checker and the writer must answer.
