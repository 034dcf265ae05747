// What the table program prints for every text, from bytes to bytes: definitions, laws and claims only, in specs/. Nothing here runs.
#![tactic(auto)]
