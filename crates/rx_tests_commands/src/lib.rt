//! Tests of the commands over the whole language, and of what stands over texts and trees.
#![tactic(auto)]

#[cfg(test)]
mod certificates;
#[cfg(test)]
mod check;
#[cfg(test)]
mod compact;
#[cfg(test)]
mod extract;
#[cfg(test)]
mod failing;
#[cfg(test)]
mod generated;
#[cfg(test)]
mod holding;
#[cfg(test)]
mod run;
#[cfg(test)]
mod texts;
