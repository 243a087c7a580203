// The bytes of lifted evidence, that they are read back, and that no other bytes are read as it: definitions and theorems only, in specs/.
#![tactic(auto)]
