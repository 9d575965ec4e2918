//! Laws, each the contract of a function that does nothing.

ghost use Rattle.std.specs.Prelude.{◌≡◌, ℕ, true, Option as OptionOf};
ghost use Rattle.rx_typed.specs.Tree.{Function};
ghost use Rattle.rx_meaning.specs.Programs.{Program};
ghost use Rattle.rx_engine_related.specs.ByForm.{SameEntry, EachIsItself};
ghost use Rattle.rx_engine_alike.specs.Functions.{same_item, each_is_like_itself};

/// Items that the walk finds to be the same are so by their form, with other numbers of nodes, items, loops and variables alone.
pub fn alike_items_are_same()
    ensures { (items : ℕ → ℕ) (o p : OptionOf (OptionOf Function)) → same_item items o p ≡ true → SameEntry items o p }
{}

/// A program each of whose functions the walk finds to be like itself is one whose items are each itself, as `extracted_programs_run_alike`
/// asks.
pub fn like_programs_are_themselves()
    ensures { (P : Program) → each_is_like_itself P.functions ≡ true → EachIsItself P }
{}
