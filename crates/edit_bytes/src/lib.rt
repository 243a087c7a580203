// The bytes that the editor writes out, that they are an accepted description, and that every accepted description of three pairs is
// written: definitions and theorems only, in specs/.
#![tactic(auto)]
