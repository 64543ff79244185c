// Following a listing leads where the processor goes: definitions and the theorem.
#![tactic(auto)]
