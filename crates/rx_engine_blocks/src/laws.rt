//! Laws of types, each as the contract of a function that does nothing.

ghost use Rattle.std.specs.Prelude.{◌≡◌, ◌↔◌, ◌++◌, slice_get, ℕ, Bool, List as ListOf, [], Some};
ghost use Rattle.rx_typeck_solver.specs.declared.facts.Demand.{Demand};
ghost use Rattle.rx_typeck_solver.specs.declared.facts.Fact.TheVariants as fact;
ghost use Rattle.rx_typeck_solver.specs.declared.facts.Kinds.{Kinds};
ghost use Rattle.rx_typeck_solver.specs.declared.facts.Subject.{Subject};
ghost use Rattle.rx_typeck_solver.specs.declared.facts.Subject.TheVariants as subject;
ghost use Rattle.rx_core.specs.declared.types.Kind.{Kind};
ghost use Rattle.rx_typed.specs.declared.nodes.Node.{Node};
ghost use Rattle.rx_typed.specs.Named.{bind, call, variant, Exps, Parameter, Statements, Written};
ghost use Rattle.rx_typed.specs.Types.{integer, outline, parameters_declared, peeled, reference, variant_parts, Typ};
ghost use Rattle.rx_typeck_typed.specs.Demands.{declared, of_exp, of_parameter, of_parameters, of_statements};
ghost use Rattle.rx_typeck_solver.specs.Facts.{coerced, KnownItems, MeetsEach, Assignment};
ghost use Rattle.rx_typeck_solver.specs.Ordered.{Orderly};
ghost use Rattle.rx_typeck_solver.specs.Valid.{literals_of, IsIn, Task, Told, Valid};
ghost use Rattle.rx_engine_blocks.specs.Renumbering.{shape_at, subject_at, Renumbering};
ghost use Rattle.rx_engine_blocks.specs.DemandsLike.{DemandsLike, NoSpecial};
ghost use Rattle.rx_engine_blocks.specs.Knows.{Knows};
ghost use Rattle.rx_engine_blocks.specs.Along.{composed, none_viewed, renumbered_types, shared, Along, Inverse, MutableAt, PartialInverse, Viewed};
ghost use Rattle.rx_engine_blocks.specs.Carried.{Accepted, Carried};
ghost use Rattle.rx_engine_blocks.specs.Blocks.{none_behind, task_of, AllReferences, Behind, Block, Fixes, ToldIn};
ghost use Rattle.rx_engine_blocks.specs.ByItself.{ByItself, TellsOne};
ghost use Rattle.rx_engine_blocks.specs.Parts.{Added, SameAs, StandsFor};
ghost use Rattle.rx_engine_blocks.specs.Copies.{EachCopies};
ghost use Rattle.rx_engine_blocks.specs.Around.{Among, Round};
ghost use Rattle.rx_engine_blocks.specs.Sites.{ChangedSite};
ghost use Rattle.rx_engine_blocks.specs.Seen.{SeenDemands};
ghost use Rattle.rx_engine_blocks.specs.Made.{MadeParameters, MadeStatements};
ghost use Rattle.rx_engine_blocks.specs.Signature.{typ_written, AsWritten};
ghost use Rattle.rx_engine_blocks.specs.Given.{AreGiven, EachFits};
ghost use Rattle.rx_engine_blocks.specs.Gets.{IsAsked};
ghost use Rattle.rx_engine_blocks.specs.Settled.{Settles};
ghost use Rattle.rx_engine_blocks.specs.Paired.{by_pairs, OneToOne, Pairs};
ghost use Rattle.rx_engine_blocks.specs.Pinned.{PinnedDemands};

/// Types meet demands exactly where the corresponding types meet the corresponding demands.
pub fn renumbered_are_met()
    ensures { (r : Renumbering) (D E : KnownItems) → Knows r D E → (A B : Assignment) → Along r A B → (ds es : ListOf Demand) → DemandsLike r NoSpecial ds es → (MeetsEach D A ds ↔ MeetsEach E B es) }
{}

/// What is carried from a valid assignment is valid, in a part that is accepted.
pub fn carried_is_valid()
    ensures { (D E : KnownItems) (task part : Task) (A B : Assignment) → Orderly part → Valid D task A → Carried D E task part A B → Accepted E part → Valid E part B }
{}

/// Demands by other numbers have the valid assignment by these numbers.
pub fn renumbered_are_valid()
    ensures { (r : Renumbering) (D E : KnownItems) → Knows r D E → (i : Inverse r) (ds es : ListOf Demand) → DemandsLike r NoSpecial ds es → Orderly (task_of es)
        → (A : Assignment) → Valid D (task_of ds) A → Valid E (task_of es) (renumbered_types r i A) }
{}

/// A part of the answer that stands for the text block by block gives what comes from the text the text's types, where it gives them
/// in each of its assignments to what another part tells.
pub fn parts_are_typed_alike()
    ensures { (r : Renumbering) (u : PartialInverse r) (view : Viewed) (behind : Behind) (q : Renumbering) (elsewhere : Behind) (fs : ListOf Demand) (D E : KnownItems) → Knows r D E
        → (A V : Assignment) (ds es : ListOf Demand) → AllReferences r u view behind E A es → MutableAt view A → Orderly (task_of es) → Fixes r view (ToldIn q elsewhere fs) E A es
        → Block r u view behind (ToldIn q elsewhere fs) D E A V ds es → Valid D (task_of ds) A → Valid E (task_of es) V
        → (x : Subject) → Told es (subject_at r x) → V (subject_at r x) ≡ shared (view x) (shape_at r (A x)) }
{}

/// The same where each literal of the part that has no suffix has i32 in the text, whatever else is fixed.
pub fn signed_parts_are_typed_alike()
    ensures { (r : Renumbering) (u : PartialInverse r) (view : Viewed) (behind : Behind) (q : Renumbering) (elsewhere : Behind) (fs : ListOf Demand) (D E : KnownItems) (A V : Assignment) (ds es : ListOf Demand)
        → Orderly (task_of es) → Block r u view behind (ToldIn q elsewhere fs) D E A V ds es
        → ((m : ℕ) → IsIn m (literals_of ds) → IsIn (r.nodes m) (literals_of es) → peeled (A (subject.Node m)) ≡ integer Kind.I32)
        → Valid D (task_of ds) A → Valid E (task_of es) V → (x : Subject) → Told es (subject_at r x) → V (subject_at r x) ≡ shared (view x) (shape_at r (A x)) }
{}

/// Of a text with a run, one part of the answer has the run's demands between demands that it adds, and another has what stands round the run
/// and other demands in its place. Each gives what comes from the text the text's types, where it gives them in each of its assignments to
/// what the other tells too.
pub fn runs_are_typed_alike()
    ensures { (r : Renumbering) (u : PartialInverse r) (view : Viewed) (behind : Behind) (q : Renumbering) (w : PartialInverse q) (D E : KnownItems) → Knows r D E → Knows q D E
        → (A V W : Assignment) (text run other head copy end es fs : ListOf Demand) → es ≡ head ++ (copy ++ end) → Among run text
        → DemandsLike r (StandsFor r u view behind (ToldIn q none_behind fs) D E A V es) run copy
        → DemandsLike q (Round (StandsFor q w none_viewed none_behind (ToldIn r behind es) D E A W fs) run other) text fs
        → Orderly (task_of es) → Orderly (task_of fs) → Valid D (task_of text) A → Valid E (task_of es) V → Valid E (task_of fs) W
        → AllReferences r u view behind E A es → MutableAt view A → EachCopies view A run
        → (Fixes r view (ToldIn q none_behind fs) E A es → Added (composed r u view A V) V head → Added (composed r u view A V) V end
        → (x : Subject) → Told es (subject_at r x) → V (subject_at r x) ≡ shared (view x) (shape_at r (A x)))
        × (Fixes q none_viewed (ToldIn r behind es) E A fs → Added (composed q w none_viewed A W) W other
        → (x : Subject) → Told fs (subject_at q x) → W (subject_at q x) ≡ shape_at q (A x)) }
{}

/// Both are blocks.
pub fn runs_are_blocks()
    ensures { (r : Renumbering) (u : PartialInverse r) (view : Viewed) (behind : Behind) (q : Renumbering) (w : PartialInverse q) (D E : KnownItems) → Knows r D E → Knows q D E
        → (A V W : Assignment) (text run other head copy end es fs : ListOf Demand) → es ≡ head ++ (copy ++ end) → Among run text
        → DemandsLike r (StandsFor r u view behind (ToldIn q none_behind fs) D E A V es) run copy
        → DemandsLike q (Round (StandsFor q w none_viewed none_behind (ToldIn r behind es) D E A W fs) run other) text fs
        → Orderly (task_of es) → Orderly (task_of fs) → Valid E (task_of es) V → Valid E (task_of fs) W → MutableAt view A → EachCopies view A run
        → (Added (composed r u view A V) V head → Added (composed r u view A V) V end → Block r u view behind (ToldIn q none_behind fs) D E A V text es)
        × (Added (composed q w none_viewed A W) W other → Block q w none_viewed none_behind (ToldIn r behind es) D E A W text fs) }
{}

/// What comes from the text in the front of a part has the outlines of the text there, whatever follows.
pub fn fronts_are_outlined_alike()
    ensures { (r : Renumbering) (u : PartialInverse r) (view : Viewed) (behind : Behind) (q : Renumbering) (elsewhere : Behind) (fs : ListOf Demand) (D E : KnownItems)
        → (A V : Assignment) (gs front rest : ListOf Demand) → Block r u view behind (ToldIn q elsewhere fs) D E A V gs front → Orderly (task_of (front ++ rest))
        → MeetsEach D A gs → MeetsEach E V (front ++ rest) → (x : Subject) → Told front (subject_at r x) → outline (V (subject_at r x)) ≡ outline (shared (view x) (shape_at r (A x))) }
{}

/// Demands that are copied are a block, where those about what is viewed may be copied.
pub fn copies_are_blocks()
    ensures { (r : Renumbering) (u : PartialInverse r) (view : Viewed) (behind : Behind) (q : Renumbering) (elsewhere : Behind) (fs : ListOf Demand) (D E : KnownItems) → Knows r D E
        → (A V : Assignment) → MutableAt view A → (ds es : ListOf Demand) → DemandsLike r NoSpecial ds es → EachCopies view A ds → Block r u view behind (ToldIn q elsewhere fs) D E A V ds es }
{}

/// For a variable behind a reference, and the tests of places that stand on it, stand those of what the reference leads to.
pub fn references_stand_for_variables()
    ensures { (r : Renumbering) (u : PartialInverse r) (view : Viewed) (behind : Behind) (q : Renumbering) (elsewhere : Behind) (fs : ListOf Demand) (D E : KnownItems) → Knows r D E
        → (A V : Assignment) (es : ListOf Demand) → AllReferences r u view behind E A es → MeetsEach E V es → (gs gs' : ListOf Demand) → SeenDemands r u view behind gs gs'
        → StandsFor r u view behind (ToldIn q elsewhere fs) D E A V es gs gs' }
{}

/// For a literal stands one with its kind as suffix.
pub fn suffixes_stand_for_literals()
    ensures { (r : Renumbering) (u : PartialInverse r) (view : Viewed) (behind : Behind) (q : Renumbering) (elsewhere : Behind) (fs : ListOf Demand) (D E : KnownItems) → Knows r D E
        → (A V : Assignment) (es gs gs' : ListOf Demand) → PinnedDemands r A gs gs' → StandsFor r u view behind (ToldIn q elsewhere fs) D E A V es gs gs' }
{}

/// For nothing stand demands of what is new in the part, or has the type there that comes from the text.
pub fn additions_stand_for_nothing()
    ensures { (r : Renumbering) (u : PartialInverse r) (view : Viewed) (behind : Behind) (q : Renumbering) (elsewhere : Behind) (fs : ListOf Demand) (D E : KnownItems) → Knows r D E
        → (A V : Assignment) (es gs : ListOf Demand) → Added (composed r u view A V) V gs → StandsFor r u view behind (ToldIn q elsewhere fs) D E A V es [] gs }
{}

/// Where an expression stands at another place, others stand for what its place asks: it is a coercion site now, or one no more, or another
/// declaration tells the type that is expected.
pub fn changed_sites_stand()
    ensures { (r : Renumbering) (u : PartialInverse r) (view : Viewed) (behind : Behind) (q : Renumbering) (elsewhere : Behind) (fs : ListOf Demand) (D E : KnownItems) → Knows r D E
        → (A V : Assignment) (es gs gs' : ListOf Demand) → ChangedSite r view D E A gs gs' → StandsFor r u view behind (ToldIn q elsewhere fs) D E A V es gs gs' }
{}

/// A parameter has one type in all assignments, that which is written.
pub fn parameters_are_fixed()
    ensures { (D : KnownItems) (A B : Assignment) (x : Parameter) (ds es : ListOf Demand) → MeetsEach D A (of_parameter x ds) → MeetsEach D B (of_parameter x es)
        → A (subject.Variable x.variable) ≡ B (subject.Variable x.variable) }
{}

/// Parameters in front of all else have the types that are written, in each assignment; so has a variable that is declared with a type.
pub fn what_is_written_is_fixed()
    ensures { (D : KnownItems) (C : Assignment) → ((xs : ListOf Parameter) (ds : ListOf Demand) → MeetsEach D C (of_parameters xs [] ++ ds) → AsWritten C xs)
        × ((k : Node) (x : ℕ) (m : Bool) (t : Written) (ds es : ListOf Demand) → MeetsEach D C (declared (bind k x m) (Some t) ds ++ es) → C (subject.Variable x) ≡ typ_written t) }
{}

/// Variables and borrows of variables that are arguments of a call, or parts of a variant, fit the types that are declared.
pub fn what_is_given_fits()
    ensures { (D : KnownItems) (C : Assignment) (f : ℕ) (n : Node) (es : Exps) (ds : ListOf Demand) → AreGiven es
        → ((g : ℕ) → MeetsEach D C (of_exp f (call n g es) ds) → EachFits C (parameters_declared (slice_get D.items g)) 0 es)
        × ((i v : ℕ) → MeetsEach D C (of_exp f (variant n i v es) ds) → EachFits C (variant_parts D.items i v) 0 es) }
{}

/// A reference that fits one of its mutability leads to the same type.
pub fn references_that_fit_are_fixed()
    ensures { (m : Bool) (t u : Typ) → coerced (reference m t) (reference m u) ≡ reference m t → t ≡ u }
{}

/// Two types of one outline that fit the same expected type are one.
pub fn what_fits_is_fixed()
    ensures { (t u e : Typ) → outline t ≡ outline u → Some (coerced t e) ≡ Some t → Some (coerced u e) ≡ Some u → t ≡ u }
{}

/// A part gives what another tells too the text's types in each of its assignments, where this is what it settles by itself: its parameters,
/// variables that it declares with a type, and those that it gives where declared types are expected.
pub fn what_is_settled_is_fixed()
    ensures { (r : Renumbering) (view : Viewed) (q : Renumbering) (elsewhere : Behind) (fs : ListOf Demand) (E : KnownItems) (A : Assignment) (es : ListOf Demand)
        → ((x : Subject) → ToldIn q elsewhere fs x → Told es (subject_at r x) → Settles E es (subject_at r x) (shared (view x) (shape_at r (A x)))) → Fixes r view (ToldIn q elsewhere fs) E A es }
{}

/// What the rules ask of parameters and statements that are made anew is added, where their nodes and variables are new in the part or have
/// the types there that come from the text.
pub fn what_is_made_is_added()
    ensures { (r : Renumbering) (u : PartialInverse r) (view : Viewed) (A V : Assignment) (f : ℕ) (xs : ListOf Parameter) (ss : Statements)
        → MadeParameters (SameAs (composed r u view A V) V) xs → MadeStatements (SameAs (composed r u view A V) V) ss
        → Added (composed r u view A V) V (of_parameters xs []) × Added (composed r u view A V) V (of_statements f ss []) }
{}

/// A numbering by pairs, in which no number is in two, can be undone.
pub fn pairs_can_be_undone()
    ensures { (ns xs : Pairs) (big : ℕ) (items : ℕ → ℕ) → OneToOne ns big → OneToOne xs big → PartialInverse (by_pairs ns xs big items) }
{}

/// What is not told may have any type in the valid assignment.
pub fn what_is_not_told_is_free()
    ensures { (D : KnownItems) (ds : ListOf Demand) → Orderly (task_of ds) → (A B : Assignment) → Valid D (task_of ds) A → ((x : Subject) → Told ds x → A x ≡ B x) → Valid D (task_of ds) B }
{}

/// A part of the answer of which nothing says that it is accepted has a valid assignment: one that meets what is asked, with the text's types
/// at what comes from the text, where the part stands for the text block by block and all else that it tells has one type.
pub fn parts_are_valid()
    ensures { (r : Renumbering) (u : PartialInverse r) (view : Viewed) (behind : Behind) (q : Renumbering) (elsewhere : Behind) (fs : ListOf Demand) (D E : KnownItems) → Knows r D E
        → (A V : Assignment) (ds es : ListOf Demand) → AllReferences r u view behind E A es → MutableAt view A → Orderly (task_of es) → Fixes r view (ToldIn q elsewhere fs) E A es
        → Block r u view behind (ToldIn q elsewhere fs) D E A V ds es → Valid D (task_of ds) A → ByItself r u view (ToldIn q elsewhere fs) E A V ds es → Valid E (task_of es) V }
{}

/// So it is of both parts of a text with a run: the one that has the run between demands that it adds, and the one with what stands round it.
pub fn runs_are_valid()
    ensures { (r : Renumbering) (u : PartialInverse r) (view : Viewed) (behind : Behind) (q : Renumbering) (w : PartialInverse q) (D E : KnownItems) → Knows r D E → Knows q D E
        → (A V W : Assignment) (text run other head copy end es fs : ListOf Demand) → es ≡ head ++ (copy ++ end) → Among run text
        → DemandsLike r (StandsFor r u view behind (ToldIn q none_behind fs) D E A V es) run copy
        → DemandsLike q (Round (StandsFor q w none_viewed none_behind (ToldIn r behind es) D E A W fs) run other) text fs
        → Orderly (task_of es) → Orderly (task_of fs) → Valid D (task_of text) A → AllReferences r u view behind E A es → MutableAt view A → EachCopies view A run
        → Fixes r view (ToldIn q none_behind fs) E A es → Fixes q none_viewed (ToldIn r behind es) E A fs
        → ByItself r u view (ToldIn q none_behind fs) E A V text es → ByItself q w none_viewed (ToldIn r behind es) E A W text fs
        → Added (composed r u view A V) V head → Added (composed r u view A V) V end → Added (composed q w none_viewed A W) W other
        → Valid E (task_of es) V × Valid E (task_of fs) W }
{}

/// Two assignments that meet demands in order, and give the same integers where these ask for some, give all that is told the same types.
pub fn integers_settle_types()
    ensures { (D : KnownItems) (ds : ListOf Demand) → Orderly (task_of ds) → (A B : Assignment) → MeetsEach D A ds → MeetsEach D B ds
        → ((n : ℕ) (s : Kinds) → IsAsked (fact.Integer n s) ds → A (subject.Node n) ≡ B (subject.Node n)) → (x : Subject) → Told ds x → A x ≡ B x }
{}

/// So a part that asks for no integer but those of the text has one type for all that it tells, where what comes from the text has its types.
pub fn integers_of_the_text_settle_a_part()
    ensures { (r : Renumbering) (E : KnownItems) (V : Assignment) (ds es : ListOf Demand) → Orderly (task_of es) → MeetsEach E V es
        → ((n : ℕ) (s : Kinds) → IsAsked (fact.Integer n s) es → (m : ℕ) × (r.nodes m ≡ n) × Told ds (subject.Node m)) → (y : Subject) → Told es y → TellsOne r E V ds es y }
{}
