//! The numbers of lifetimes.

ghost use Rattle.std.specs.Prelude.{◌≡◌, ◌+◌, ◌++◌, map, IfOk, OnOk};
ghost use Rattle.rx_typed.specs.Regions.{region-Ty};
ghost use Rattle.rx_lower_walks.specs.Text.{actions_of};
ghost use Rattle.rx_lower_walks.specs.PlainSite.{plain-Site};
ghost use Rattle.rx_lower_walks.specs.PlainFlow.{plain-Act};
ghost use Rattle.rx_lower_lifetimes.specs.Positions as positions;
ghost use Rattle.rx_lower_lifetimes.specs.Numbered as spec;
ghost use Rattle.rx_lower_lifetimes.specs.PlainOwn.{plain-Own};
ghost use Rattle.rx_lower_lifetimes.specs.PlainOf.{plain-Open, plain-Held};

use crate::held::{Held, Open};
use crate::values::own_lifetimes;
use rx_core::{LetGo, List, Ty, keep, pushed};
use rx_lower_walks::{Act, Site};
use rx_typed::{Decls, Signature, call_signature, numbered};
use std::alloc::{AllocError, Global};

/// What a site has of its own: a borrow its region, a call its signature.
#[derive(Drop)]
pub enum Own {
    Nothing,
    Region(u32),
    Signature(Signature),
}

impl LetGo for Own {
    fn let_go(self) {
        match self {
            Own::Nothing => (),
            Own::Region(_) => (),
            Own::Signature(signature) => signature.let_go(),
        }
    }
}

/// The types of variables, behind those before, with their open lifetimes numbered.
pub fn push_variables(
    alloc: Global,
    opens: &[Open],
    next: &mut u32,
    before: List<Ty>,
) -> Result<List<Ty>, AllocError>
    ensures types { IfOk result (λ it. map region-Ty it ≡ map region-Ty before ++ spec.all_numbered next.old (map plain-Open opens.now)) }
    ensures next { OnOk result (next.new ≡ next.old + spec.all_open (map plain-Open opens.now)) }
{
    let mut all = before;
    for open in opens {
        let (one, before) = keep(all, numbered(alloc, &open.ty, open.from, next))?;
        all = pushed(before, one)?;
    }
    Ok(all)
}

/// Those of temporaries.
pub fn push_temporaries(
    alloc: Global,
    held: &[Held],
    next: &mut u32,
    before: List<Ty>,
) -> Result<List<Ty>, AllocError>
    ensures types { IfOk result (λ it. map region-Ty it ≡ map region-Ty before ++ spec.all_numbered next.old (spec.opened (map plain-Held held.now))) }
    ensures next { OnOk result (next.new ≡ next.old + spec.all_open (spec.opened (map plain-Held held.now))) }
{
    let mut all = before;
    for one in held {
        let (ty, before) = keep(all, numbered(alloc, &one.ty, 0, next))?;
        all = pushed(before, ty)?;
    }
    Ok(all)
}

/// What an action has of its own, from the next number on.
fn own_of(alloc: Global, decls: &Decls, next: u32, act: &Act) -> Result<Own, AllocError>
    ensures { IfOk result (λ it. plain-Own it ≡ spec.own_of decls.now.items next (plain-Act act.now)) }
{
    match act {
        Act::Call(function, _, _) => {
            let signature = call_signature(alloc, decls, *function, next)?;
            Ok(Own::Signature(signature))
        }
        Act::Borrow(_, _, _) => Ok(Own::Region(next)),
        Act::Declare(_)
        | Act::Dead(_)
        | Act::Read(_, _, _)
        | Act::Write(_, _, _)
        | Act::Test(_, _)
        | Act::Build(_, _, _, _)
        | Act::Input(_)
        | Act::Print(_)
        | Act::Give(_) => Ok(Own::Nothing),
    }
}

/// The next number behind the lifetimes of an action.
fn behind_own(decls: &Decls, act: &Act, next: u32) -> Result<u32, AllocError>
    ensures { IfOk result (λ it. it ≡ next + positions.own_lifetimes decls.now.items (plain-Act act.now)) }
{
    match next.checked_add(own_lifetimes(decls, act)) {
        Some(behind) => Ok(behind),
        None => Err(AllocError),
    }
}

/// What sites have of their own.
pub fn all_owned(
    alloc: Global,
    decls: &Decls,
    sites: &[Site],
    next: &mut u32,
) -> Result<List<Own>, AllocError>
    ensures owned { IfOk result (λ it. map plain-Own it ≡ spec.all_owned decls.now.items next.old (actions_of (map plain-Site sites.now))) }
    ensures next { OnOk result (next.new ≡ next.old + positions.all_own decls.now.items (actions_of (map plain-Site sites.now))) }
{
    let mut all = List::new(alloc);
    for site in sites {
        let (one, before) = keep(all, own_of(alloc, decls, *next, &site.action.act))?;
        let (behind, before) = keep(before, behind_own(decls, &site.action.act, *next))?;
        *next = behind;
        all = pushed(before, one)?;
    }
    Ok(all)
}
