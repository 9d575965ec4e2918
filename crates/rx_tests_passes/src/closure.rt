//! Closed sets: beside a slow solver, and along long chains.

mod chains;
mod closing;
mod slow;
