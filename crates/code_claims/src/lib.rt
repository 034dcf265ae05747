// What the exported functions' codes say: definitions, laws and claims only, in specs/. Nothing here runs.
#![tactic(auto)]
