//! What holds of the rows of the satisfaction table, whatever the machine does: lemmas alone.
#![tactic(auto)]
