// No code: theorems about what the other crates' functions answer and leave.
#![tactic(auto)]
