// Mathematics: truth values, numbers, lists, finite sums, XOR of bytes. No functions.
#![tactic(auto)]
