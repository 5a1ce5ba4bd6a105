// The verdict, the cut and the rescue on two tapes, and demand 3 of them: definitions and theorems.
#![tactic(auto)]
