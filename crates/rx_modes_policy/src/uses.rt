//! How a run uses a variable, and how a new function takes it.

/// How the new function takes a variable `x: T` of the text.
#[derive(Clone, Copy, Debug, PartialEq, Eq)]
pub enum Mode {
    /// `x: T`, and `x` is the argument.
    Value,
    /// Of `T` that is `&mut U`: `x: &mut U`, and `x` is the argument, which is reborrowed.
    Reborrow,
    /// Of `T` that is `&mut U`: `x: &U`, and `x` is the argument, which is shared.
    View,
    /// `x: &T`, and `&x` is the argument.
    Shared,
    /// `x: &mut T`, and `&mut x` is the argument.
    Mut,
}

/// What is done with a variable `x` by a run of statements, and by the rest of its function. A path of `x` is a place
/// that begins with it; its own storage is what is in front of the first dereference.
#[derive(Clone, Copy, Debug, PartialEq, Eq)]
pub struct Uses {
    /// Its type is Copy.
    pub copy: bool,
    /// Its type is `&mut T`.
    pub mut_ref: bool,
    /// The run moves it, or a part of its own storage.
    pub moved: bool,
    /// The run assigns or mutably borrows a path without a dereference.
    pub written: bool,
    /// The run shares a path without a dereference.
    pub lent: bool,
    /// The run assigns or mutably borrows a path with a dereference.
    pub through: bool,
    /// The function mutably borrows a path without a dereference outside the run.
    pub mut_out: bool,
    /// It is declared `mut`.
    pub declared_mut: bool,
    /// It is live where some exit of the run leads.
    pub live_out: bool,
    /// It is set where the run is entered.
    pub set_in: bool,
}
