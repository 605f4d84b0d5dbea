//! Journals that are checked: worked programs whose lines are changed by hand, and journals of a larger program with each change of
//! one line.
#![tactic(auto)]

#[cfg(test)]
mod changed_tests;
#[cfg(test)]
mod changes;
#[cfg(test)]
mod journals;
#[cfg(test)]
mod programs;
#[cfg(test)]
mod serial_tests;
#[cfg(test)]
mod table;
#[cfg(test)]
mod worked_tests;
