//! Scripts that are generated from a number: a cluster of three nodes with clients, and rounds that draw what happens.
#![tactic(auto)]

mod cluster;
mod draws;
mod generating;
mod lines;
mod requests;
mod turns;

pub use generating::generate;

#[cfg(test)]
mod tests;
