//! The tests of the mutators and of the pipeline that runs them. The crate has no code of its own.
#![tactic(auto)]

#[cfg(test)]
mod arrivals;
#[cfg(test)]
mod info;
#[cfg(test)]
mod kinds;
#[cfg(test)]
mod linkage;
#[cfg(test)]
mod pipeline;
#[cfg(test)]
mod records;
#[cfg(test)]
mod reverse;
#[cfg(test)]
mod targets;
#[cfg(test)]
mod transitions;
