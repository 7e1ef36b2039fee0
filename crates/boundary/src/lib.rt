// What C programs call, for the tests and the benchmarks: each function is the library's, on numbers and lent slices alone.
#![tactic(auto)]

mod numbers;
mod of_cell;
mod of_group;
mod of_lent;
mod of_order;
mod of_reader;
mod of_recording;
mod of_schedule;
mod of_sets;
