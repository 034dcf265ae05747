// What the claims of the programs share: definitions and laws only, in specs/. Nothing here runs.
#![tactic(auto)]
