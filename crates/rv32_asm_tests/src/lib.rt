//! Tests of assembled programs against the decoder, the loader and the interpreter.
#![tactic(auto)]

#[cfg(test)]
mod run_tests;
#[cfg(test)]
mod word_tests;
