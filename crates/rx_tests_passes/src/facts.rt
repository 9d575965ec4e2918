//! Initialisation and liveness: texts with what is found of their first function.

mod alive;
mod said;
mod started;
