//! Copies of items and of programs.

use crate::copying::{CopyTree, both, copy_all, copy_optional};
use crate::copying_expressions::copy_block;
use rx_core::List;
use rx_tree::{
    BoundLifetime, Derive, Enum, EnumVariant, Field, Func, Item, ItemNode, Param, Program, Struct,
};
use std::alloc::{AllocError, Global};

impl CopyTree for Program {
    fn copy(&self, alloc: Global) -> Result<Program, AllocError> {
        Ok(Program {
            items: copy_all(alloc, self.items.as_slice())?,
        })
    }
}

impl CopyTree for Item {
    fn copy(&self, alloc: Global) -> Result<Item, AllocError> {
        Ok(Item {
            span: self.span,
            node: self.node.copy(alloc)?,
        })
    }
}

impl CopyTree for ItemNode {
    fn copy(&self, alloc: Global) -> Result<ItemNode, AllocError> {
        match self {
            ItemNode::Rt(name) => Ok(ItemNode::Rt(*name)),
            ItemNode::Struct(item) => Ok(ItemNode::Struct(item.copy(alloc)?)),
            ItemNode::Enum(item) => Ok(ItemNode::Enum(item.copy(alloc)?)),
            ItemNode::Func(item) => Ok(ItemNode::Func(item.copy(alloc)?)),
        }
    }
}

impl CopyTree for Struct {
    fn copy(&self, alloc: Global) -> Result<Struct, AllocError> {
        let (head, body) = both(
            both(
                self.name.copy(alloc),
                List::<Derive>::from_slice(alloc, self.derives.as_slice()),
            ),
            both(
                copy_all(alloc, self.lifetimes.as_slice()),
                copy_all(alloc, self.fields.as_slice()),
            ),
        )?;
        Ok(Struct {
            name: head.0,
            derives: head.1,
            lifetimes: body.0,
            fields: body.1,
        })
    }
}

impl CopyTree for Field {
    fn copy(&self, alloc: Global) -> Result<Field, AllocError> {
        let (name, typ) = both(self.name.copy(alloc), self.typ.copy(alloc))?;
        Ok(Field { name, typ })
    }
}

impl CopyTree for Enum {
    fn copy(&self, alloc: Global) -> Result<Enum, AllocError> {
        let (head, body) = both(
            both(
                self.name.copy(alloc),
                List::<Derive>::from_slice(alloc, self.derives.as_slice()),
            ),
            both(
                copy_all(alloc, self.lifetimes.as_slice()),
                copy_all(alloc, self.variants.as_slice()),
            ),
        )?;
        Ok(Enum {
            name: head.0,
            derives: head.1,
            lifetimes: body.0,
            variants: body.1,
        })
    }
}

impl CopyTree for EnumVariant {
    fn copy(&self, alloc: Global) -> Result<EnumVariant, AllocError> {
        let (name, types) = both(
            self.name.copy(alloc),
            copy_all(alloc, self.types.as_slice()),
        )?;
        Ok(EnumVariant { name, types })
    }
}

impl CopyTree for BoundLifetime {
    fn copy(&self, alloc: Global) -> Result<BoundLifetime, AllocError> {
        let (name, bounds) = both(
            self.name.copy(alloc),
            copy_all(alloc, self.bounds.as_slice()),
        )?;
        Ok(BoundLifetime { name, bounds })
    }
}

impl CopyTree for Param {
    fn copy(&self, alloc: Global) -> Result<Param, AllocError> {
        let (name, typ) = both(self.name.copy(alloc), self.typ.copy(alloc))?;
        Ok(Param {
            name,
            mutable: self.mutable,
            typ,
        })
    }
}

impl CopyTree for Func {
    fn copy(&self, alloc: Global) -> Result<Func, AllocError> {
        let (head, body) = both(
            both(
                self.name.copy(alloc),
                copy_all(alloc, self.lifetimes.as_slice()),
            ),
            both(
                both(
                    copy_all(alloc, self.params.as_slice()),
                    copy_optional(alloc, &self.result),
                ),
                copy_block(alloc, &self.body),
            ),
        )?;
        let (name, lifetimes) = head;
        let (given, body) = body;
        let (params, result) = given;
        Ok(Func {
            name,
            lifetimes,
            params,
            result,
            body,
        })
    }
}
