// What each operation of the editor does to a draft of a description, what it refuses, and which drafts there are: definitions and
// theorems only, in specs/.
#![tactic(auto)]
