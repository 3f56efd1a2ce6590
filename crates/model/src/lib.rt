// Definitions and theorems about machines, mutants, test suites and implementations (01: boards, lists, locks); no code.
// Promises what the operations' answers mean: specs/laws/Demands.antt has the theorems.
// Cited by the contracts of the crates above.

#![tactic(auto)]
