//! How many parts types have.

ghost use Rattle.std.specs.Prelude.{◌≡◌, map};
ghost use Rattle.rx_typed.specs.Types as types;
ghost use Rattle.rx_typed.specs.PlainTypes.{plain-Ty};
ghost use Rattle.rx_typed_declarations.specs.Sizes as sizing;

use rx_core::Ty;

fn at_least_one(n: u64) -> u64
    ensures { result ≡ types.at_least_one n }
{
    if n == 0 { 1 } else { n }
}

/// The parts of a struct or enum by a table.
fn told(sizes: &[u64], item: u32) -> u64
    ensures { result ≡ sizing.capped (sizing.told sizes.now item) }
{
    match sizes.get(item as usize) {
        Some(size) => *size,
        None => 1,
    }
}

/// How many parts a type has, by a table of those of structs and enums; at most `u64::MAX`.
#[cycle(parts)]
#[tactic(auto, using(rx_typed::proofs::TypedRules::typ_rules, crate::proofs::Sums::counting_rules))]
pub fn parts_of(sizes: &[u64], ty: &Ty) -> u64
    ensures { result ≡ sizing.capped (types.parts (sizing.told sizes.now) (plain-Ty ty.now)) }
{
    match ty {
        Ty::Int(_) | Ty::Bool => 1,
        Ty::Tuple(parts) => at_least_one(sum_of(sizes, parts.as_slice())),
        Ty::Shared(_, inner) => parts_of(sizes, inner.get()).saturating_add(1),
        Ty::Mut(_, inner) => parts_of(sizes, inner.get()).saturating_add(1),
        Ty::Adt(item, _) => told(sizes, *item),
    }
}

/// How many parts types have together; at most `u64::MAX`.
#[cycle(parts)]
pub fn sum_of(sizes: &[u64], parts: &[Ty]) -> u64
    ensures { result ≡ sizing.capped (types.sum_of_parts (sizing.told sizes.now) (types.shapes_of (map plain-Ty parts.now))) }
{
    let mut total = 0u64;
    for ty in parts {
        total = total.saturating_add(parts_of(sizes, ty));
    }
    total
}
