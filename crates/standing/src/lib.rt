// How the cells of a queue stand, what each step makes of them, and the laws of both: definitions and
// proofs over lists of records, and no code (docs/QUEUES.md).
#![tactic(auto)]
