// What a program that reads a record prints of it: definitions and laws for those programs.
#![tactic(auto)]
