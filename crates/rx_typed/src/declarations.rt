//! What a program declares.

use rx_core::{Bound, List, Name, Ty};

/// What the items of a program declare, by item number.
///
/// They are well-formed (`WellFormed`) where their types name structs and enums of the list alone, each with as many
/// lifetimes as it declares, and lifetimes of their own item, and where no struct or enum reaches itself through its
/// fields. They are recorded (`Recorded`) where each struct and enum has the polarities of its lifetimes; `recorded`
/// makes them so.
#[derive(Drop)]
pub struct Decls {
    pub items: List<Decl>,
}

/// What an item declares. A lifetime is meant by its number in its item: the declared ones from 0, then for a function
/// the elided ones of its parameters, in the order of the text.
#[derive(Drop)]
pub enum Decl {
    Rt,
    /// Whether the struct is Copy, how many lifetimes it declares, their polarities, and its fields in order.
    Struct {
        copy: bool,
        lifetimes: u32,
        variances: List<Polarity>,
        fields: List<FieldDecl>,
    },
    /// Whether the enum is Copy, how many lifetimes it declares, their polarities, and its variants in order.
    Enum {
        copy: bool,
        lifetimes: u32,
        variances: List<Polarity>,
        variants: List<VariantDecl>,
    },
    /// How many lifetimes the function has, the types of its parameters, its result, and the declared bounds.
    Func {
        lifetimes: u32,
        params: List<Ty>,
        answer: Ty,
        bounds: List<Bound>,
    },
}

/// A field and its type.
#[derive(Drop)]
pub struct FieldDecl {
    pub name: Name,
    pub ty: Ty,
}

/// A variant and the types of its parts.
#[derive(Drop)]
pub struct VariantDecl {
    pub name: Name,
    pub parts: List<Ty>,
}

/// How a struct or enum varies with one of its lifetimes (Rust Reference, "Subtyping and Variance").
#[derive(Clone, Copy, Debug, PartialEq, Eq)]
pub enum Polarity {
    /// A longer lifetime serves in place of this one.
    Co,
    /// No other lifetime does.
    Inv,
}
