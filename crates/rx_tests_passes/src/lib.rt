//! Tests of the passes of a check and of runs: names, declarations, types beside a slow search for them, graphs, initialisation, liveness,
//! lifetimes, closed sets, loans, plans of runs, modes, outcomes.
#![tactic(auto)]

#[cfg(test)]
mod closure;
#[cfg(test)]
mod declared;
#[cfg(test)]
mod facts;
#[cfg(test)]
mod holding;
#[cfg(test)]
mod lifetimes;
#[cfg(test)]
mod loans;
#[cfg(test)]
mod modes;
#[cfg(test)]
mod names;
#[cfg(test)]
mod plans;
#[cfg(test)]
mod programs;
#[cfg(test)]
mod runs;
#[cfg(test)]
mod sites;
#[cfg(test)]
mod trying;
#[cfg(test)]
mod typed;
