//! What structs and enums declare.

ghost use Rattle.std.specs.Prelude.{◌≡◌, map};
ghost use Rattle.rx_tree.specs.PlainOf.{plain-Field, plain-EnumVariant, plain-Struct, plain-Enum};
ghost use Rattle.rx_typeck_typed.specs.Steps as steps;
ghost use Rattle.rx_typeck_typed.specs.Items as items_spec;
ghost use Rattle.rx_typeck_typed.specs.Readers.{reading, program};

use crate::declare_types::Types;
use crate::fault::DeclareFault;
use crate::marks::all_used;
use crate::reader::{Reader, Role, begins, number, push};
use rx_core::{List, Name};
use rx_resolve_names::NodeNames;
use rx_tree::{Derive, Enum, EnumVariant, Field, Struct};
use rx_typed::{Decl, FieldDecl, VariantDecl};
use std::alloc::{AllocError, Global};

/// Whether Copy is derived.
pub(crate) fn derives_copy(derives: &[Derive]) -> bool
    ensures { result ≡ items_spec.derives_copy derives.now }
{
    for derive in derives {
        match derive {
            Derive::Clone => (),
            Derive::Copy => return true,
        }
    }
    false
}

fn copy_name(alloc: Global, name: &Name) -> Result<Name, DeclareFault>
    ensures { steps.Gives (Ok name.now) result }
{
    match name.copy(alloc) {
        Ok(name) => Ok(name),
        Err(AllocError) => Err(DeclareFault::OutOfMemory),
    }
}

impl<'t> Types<'t> {
    /// A field with its type.
    fn field(&self, reader: &mut Reader<'_>, field: &Field) -> Result<FieldDecl, DeclareFault>
        ensures { steps.Reads (items_spec.field_of (program self.now) (plain-Field field.now) (reading reader.old))
            result (reading reader.new) }
    {
        let name = copy_name(self.alloc, &field.name.name)?;
        let ty = self.typ(Role::Field, reader, &field.typ)?;
        Ok(FieldDecl { name, ty })
    }

    /// Fields with their types.
    #[tactic(auto, using(crate::proofs::ReadingLemmas::before_next, crate::proofs::ReadingLemmas::before_none))]
    fn fields(
        &self,
        reader: &mut Reader<'_>,
        fields: &[Field],
    ) -> Result<List<FieldDecl>, DeclareFault>
        ensures { steps.Reads (items_spec.fields_of (program self.now) (map plain-Field fields.now)
            (reading reader.old)) result (reading reader.new) }
    {
        let mut all = List::new(self.alloc);
        for field in fields {
            push(&mut all, self.field(reader, field)?)?;
        }
        Ok(all)
    }

    /// A variant with the types of its parts.
    fn variant(
        &self,
        reader: &mut Reader<'_>,
        variant: &EnumVariant,
    ) -> Result<VariantDecl, DeclareFault>
        ensures { steps.Reads (items_spec.variant_of (program self.now) (plain-EnumVariant variant.now)
            (reading reader.old)) result (reading reader.new) }
    {
        let name = copy_name(self.alloc, &variant.name.name)?;
        let parts = self.types(Role::Field, reader, variant.types.as_slice())?;
        Ok(VariantDecl { name, parts })
    }

    /// Variants with the types of their parts.
    #[tactic(auto, using(crate::proofs::ReadingLemmas::before_next, crate::proofs::ReadingLemmas::before_none))]
    fn variants(
        &self,
        reader: &mut Reader<'_>,
        variants: &[EnumVariant],
    ) -> Result<List<VariantDecl>, DeclareFault>
        ensures { steps.Reads (items_spec.variants_of (program self.now) (map plain-EnumVariant variants.now)
            (reading reader.old)) result (reading reader.new) }
    {
        let mut all = List::new(self.alloc);
        for variant in variants {
            push(&mut all, self.variant(reader, variant)?)?;
        }
        Ok(all)
    }

    /// What a struct declares.
    pub(crate) fn declared_struct(
        &self,
        names: &[NodeNames],
        data: &Struct,
    ) -> Result<Decl, DeclareFault>
        ensures { steps.Gives (items_spec.declared_struct (program self.now) names.now (plain-Struct data.now)) result }
    {
        let mut reader = begins(self.alloc, names, 0);
        let fields = self.fields(&mut reader, data.fields.as_slice())?;
        all_used(
            self.alloc,
            data.lifetimes.as_slice(),
            reader.lifetimes.as_slice(),
        )?;
        Ok(Decl::Struct {
            copy: derives_copy(data.derives.as_slice()),
            lifetimes: number(data.lifetimes.len()),
            variances: List::new(self.alloc),
            fields,
        })
    }

    /// What an enum declares.
    pub(crate) fn declared_enum(
        &self,
        names: &[NodeNames],
        data: &Enum,
    ) -> Result<Decl, DeclareFault>
        ensures { steps.Gives (items_spec.declared_enum (program self.now) names.now (plain-Enum data.now)) result }
    {
        let mut reader = begins(self.alloc, names, 0);
        let variants = self.variants(&mut reader, data.variants.as_slice())?;
        all_used(
            self.alloc,
            data.lifetimes.as_slice(),
            reader.lifetimes.as_slice(),
        )?;
        Ok(Decl::Enum {
            copy: derives_copy(data.derives.as_slice()),
            lifetimes: number(data.lifetimes.len()),
            variances: List::new(self.alloc),
            variants,
        })
    }
}
