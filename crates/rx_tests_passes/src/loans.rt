//! Lifetimes and loans: programs that are accepted, and those with a pair of lifetimes that is missing or an access that a loan forbids.

mod calls;
mod judged;
mod order;
mod patterns;
mod places;
mod readers;
mod references;
mod walks;
