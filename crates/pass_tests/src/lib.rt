//! The tests of passes: graphs, orders, ready counters and workers. The crate has no code of its own.
#![tactic(auto)]

#[cfg(test)]
mod counters;
#[cfg(test)]
mod cycles;
#[cfg(test)]
mod graphs;
#[cfg(test)]
mod listing;
#[cfg(test)]
mod orders;
#[cfg(test)]
mod visits;
#[cfg(test)]
mod ways;
#[cfg(test)]
mod workers;
