//! What sites do to facts.

use crate::few::Few;

/// What a site does: behind it the facts of `kills` are false, then those of `gives` true, and all others as at it.
#[derive(Drop)]
pub struct Effect {
    pub kills: Few<u32>,
    pub gives: Few<u32>,
}

/// The site that all begins at, and the facts that hold there.
#[derive(Drop)]
pub struct Start {
    pub site: u32,
    pub facts: Few<u32>,
}
