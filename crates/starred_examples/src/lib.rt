// The starred examples of document 01, shown true of the definitions. No functions.
#![tactic(auto)]
