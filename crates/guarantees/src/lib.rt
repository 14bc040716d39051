// The demands said of the calls: what follows from their promises together. No functions.
#![tactic(auto)]
