// Demand 3 and document 01's marked examples: definitions, laws and claims only, in specs/. Nothing here runs.
#![tactic(auto)]
