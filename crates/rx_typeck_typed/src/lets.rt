//! What the `let`s of a function that have a type say of their variables.

ghost use Rattle.std.specs.Prelude.{◌≡◌, ◌++◌, map, slice_get, IfOk, OnOk};
ghost use Rattle.rx_tree.specs.PlainOf.{plain-Item};
ghost use Rattle.rx_typeck_elaborate_parts.specs.Entries.{plain_annotation};
ghost use Rattle.rx_typeck_typed.specs.Bindings as spec;
ghost use Rattle.rx_typeck_typed.specs.Walks as walks;

use crate::let_type;
use crate::variables::AnnotatedVariable;
use rx_core::{LetGo, List, Ty};
use rx_resolve_names::NodeNames;
use rx_tree::Item;
use rx_typeck_elaborate_parts::Annotation;
use rx_typed::{Decl, Decls};
use std::alloc::{AllocError, Global};

/// A program, what it declares, and the number that free lifetimes have.
#[derive(Clone, Copy)]
pub(crate) struct Lets<'t> {
    pub(crate) alloc: Global,
    pub(crate) items: &'t [Item],
    pub(crate) decls: &'t Decls,
    pub(crate) free: u32,
}

/// How many lifetimes a function has.
fn lifetimes(decls: &Decls, item: u32) -> u32
    ensures { result ≡ spec.lifetimes (slice_get decls.now.items item) }
{
    match decls.items.get(item as usize) {
        Some(Decl::Func { lifetimes, .. }) => *lifetimes,
        _ => 0,
    }
}

impl<'t> Lets<'t> {
    /// The entries of names behind the pattern, from the type's on.
    fn names_behind<'n>(&self, annotation: &Annotation<'n>) -> Result<&'n [NodeNames], AllocError>
        ensures { IfOk result (λ ns. ns.now ≡ (spec.behind (plain_annotation annotation.now)).names) }
    {
        let mut cursor = annotation.cursor(self.alloc);
        let mut nothing = List::new(self.alloc);
        let unit = Ty::Tuple(List::new(self.alloc));
        let walked = self.owned(&mut cursor, &mut nothing, None, annotation.pattern, unit);
        nothing.let_go();
        walked?;
        Ok(cursor.names())
    }

    /// Adds the variables of a `let`.
    fn add(
        &self,
        annotation: &Annotation<'_>,
        all: &mut List<AnnotatedVariable>,
    ) -> Result<(), AllocError>
        ensures { OnOk result (map walks.plain-Variable all.new ≡ map walks.plain-Variable all.old ++ spec.of_let (walks.program self.now) (walks.declared self.now) self.now.free (plain_annotation annotation.now)) }
    {
        let names = self.names_behind(annotation)?;
        let ty = let_type(self.alloc, self.items, annotation.typ, names, self.free)?;
        let mut cursor = annotation.cursor(self.alloc);
        self.owned(&mut cursor, all, None, annotation.pattern, ty)
    }
}

/// The variables of a function that `let`s with a type bind, in the order of the text, with their types: by the items of the
/// program, what they declare, and the number of the function's item.
///
/// # Errors
///
/// Memory runs out.
pub fn annotated(
    alloc: Global,
    items: &[Item],
    decls: &Decls,
    item: u32,
    annotations: &[Annotation<'_>],
) -> Result<List<AnnotatedVariable>, AllocError>
    ensures { IfOk result (λ it. map walks.plain-Variable it ≡ spec.annotated (map plain-Item items.now) decls.now.items item (map plain_annotation annotations.now)) }
{
    let free = lifetimes(decls, item);
    let lets = Lets {
        alloc,
        items,
        decls,
        free,
    };
    let mut all = List::new(alloc);
    for annotation in annotations {
        lets.add(annotation, &mut all)?;
    }
    Ok(all)
}
