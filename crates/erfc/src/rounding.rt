pub mod round_ties_even;
