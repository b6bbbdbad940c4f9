//! Tests of trees, tokens, spellings and the parser, of constants and types alone, and of samples.
#![tactic(auto)]

#[cfg(test)]
mod alone;
#[cfg(test)]
mod parse;
#[cfg(test)]
mod sample;
#[cfg(test)]
mod scan;
#[cfg(test)]
mod tree;
