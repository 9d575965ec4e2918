//! Laws of marked functions, each the contract of a function that does nothing.

ghost use Rattle.std.specs.Prelude.{◌≡◌, ℕ, List as ListOf, [], ◌∷◌, ◌++◌};
ghost use Rattle.rx_typed.specs.Tree.{Temporary, Body, runs, Function};
ghost use Rattle.rx_lower_walks.specs.Actions.{Action};
ghost use Rattle.rx_lower_walks.specs.Orders.{Order, order_body, order_function};
ghost use Rattle.rx_lower_walks.specs.Walks.{Out, stopped, Walk, IsWalk, Among};
ghost use Rattle.rx_exits_plan.specs.Blocks.{Statement, before};
ghost use Rattle.rx_exits_plan.specs.Runs.{Run};
ghost use Rattle.rx_exits_plan.specs.Points.{Point};
ghost use Rattle.rx_exits_plan.specs.Marked.{mark, shown, marked};
ghost use Rattle.rx_exits_plan.specs.Unmarked.{unmarked};
ghost use Rattle.rx_exits_plan.specs.Through.{Through, actions_of};
ghost use Rattle.rx_exits_plan.specs.Coming.{Into, HasNoMark, RunBlock};

/// In a block, a mark behind some statements is held by the walks that went through these statements, also where nothing is done
/// there, and by no other: `then_mark` and `mark_then` are such blocks, and so is the run's.
pub fn marks_are_held_where_walks_come()
    ensures held { (ss : ListOf Statement) (p : Point) (b : Body) (n : ℕ) (d : Temporary) (w : ListOf Action) → Through ss w
        → Walk (order_body (before ss (runs (mark p) b)) n d) (w ++ shown p ∷ []) stopped }
    ensures came { (ss : ListOf Statement) (p : Point) (b : Body) (n : ℕ) (d : Temporary) (u : ListOf Action) (o : Out) → (Among (shown p) (actions_of ss) → ⊥)
        → Walk (order_body (before ss (runs (mark p) b)) n d) u o → Among (shown p) u → (w vs : ListOf Action) × Through ss w × (u ≡ w ++ shown p ∷ vs) }
{}

/// Where the function has no mark of its own, a walk of the marked function that holds a mark came to the block of the run, and went on
/// in there to the mark; and a walk that does so holds it.
pub fn marks_are_in_the_block_of_the_run()
    ensures came { (f : Function) (r : Run) (ls : ListOf ℕ) (p : Point) (w : ListOf Action) → HasNoMark (order_function f) → IsWalk (marked r ls [] f) (w ++ shown p ∷ [])
        → (s : Order) × RunBlock r ls s × (front us : ListOf Action) × Into s (order_function (marked r ls [] f)) front × Walk s (us ++ shown p ∷ []) stopped
        × (w ≡ front ++ us) }
    ensures held { (f : Function) (r : Run) (ls : ListOf ℕ) (p : Point) (s : Order) (front us : ListOf Action) → Into s (order_function (marked r ls [] f)) front
        → Walk s (us ++ shown p ∷ []) stopped → IsWalk (marked r ls [] f) ((front ++ us) ++ shown p ∷ []) }
{}

/// Without marks the walks of a marked function are those of the function, in both directions.
pub fn marks_change_no_walk()
    ensures none_new { (f : Function) (r : Run) (ls : ListOf ℕ) (u : ListOf Action) → IsWalk (marked r ls [] f) u
        → (w : ListOf Action) × IsWalk f w × (unmarked u ≡ unmarked w) }
    ensures none_lost { (f : Function) (r : Run) (ls : ListOf ℕ) (w : ListOf Action) → IsWalk f w
        → (u : ListOf Action) × IsWalk (marked r ls [] f) u × (unmarked u ≡ unmarked w) }
{}
