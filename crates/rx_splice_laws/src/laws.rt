//! Laws, each the contract of a function that does nothing.

ghost use Rattle.std.specs.Prelude.{◌≡◌, ◌≢◌, ◌+◌, ◌≤◌, ◌++◌, ℕ, false, true, List, [], ◌∷◌, length};
ghost use Rattle.std.specs.List.{list_all};
ghost use Rattle.rx_core.specs.declared.types.Span.{Span};
ghost use Rattle.rx_tree.specs.Plain.{Body, Expression, Function, OptionalExpression, absent, present, ProgramTree, Statement};
ghost use Rattle.rx_tree.specs.Lists.{Every, listed};
ghost use Rattle.rx_tree.specs.PlainOf.{statements_of};
ghost use Rattle.rx_lex.specs.Tok.{Tok};
ghost use Rattle.rx_lex.specs.Tokens.{at_line_end, Lexes, Tokens};
ghost use Rattle.rx_parse_grammar.specs.grammar.Words.{span_of};
ghost use Rattle.rx_parse_grammar.specs.grammar.Expressions.{AreStatements, IsBlock};
ghost use Rattle.rx_typed.specs.Types.{Typ, levels};
ghost use Rattle.rx_print_spelling.specs.Formed.{Formed, FormedOptional};
ghost use Rattle.rx_print_spelling.specs.Levels.{tail_levels};
ghost use Rattle.rx_resolve_names.specs.Meant.{Around};
ghost use Rattle.rx_hoist_extraction.specs.Names.{Names};
ghost use Rattle.rx_hoist_extraction.specs.Run.{block_of, Parts};
ghost use Rattle.rx_hoist_extraction.specs.Plan.{Bounds, Plan, Variable};
ghost use Rattle.rx_hoist_extraction.specs.NewFunction.{new_function};
ghost use Rattle.rx_hoist_extraction.specs.NewBody.{behind_locals, declared, ended, last_of, next_outs};
ghost use Rattle.rx_hoist_extraction.specs.FormedPlan.{FormedPlan, TypeSpells, VariableSpells};
ghost use Rattle.rx_splice_laws.specs.Edits.{Edit, spliced, Ordered};
ghost use Rattle.rx_splice_laws.specs.Indent.{is_level, reindented};
ghost use Rattle.rx_splice_laws.specs.MovedBy.{moved_by, moved_statements, moved_tail, PinsLow};
ghost use Rattle.rx_splice_laws.specs.PinnedBody.{SplicedBody};
ghost use Rattle.rx_splice_laws.specs.RunDone.{edits_of_done, ReadDoneRun};
ghost use Rattle.rx_splice_laws.specs.RunEnd.{end_by, in_variant, in_tuple, is_open};
ghost use Rattle.rx_splice_laws.specs.EndRead.{edits_by_end, ReadWholeBody, run_on_lines, RunTokens, ValueLow};
ghost use Rattle.rx_splice_laws.specs.Fronts.{edits_of_open, Fronts};
ghost use Rattle.rx_splice_laws.specs.RunRead.{ReadAs, ReadBody, ReadRun, ReadRunLines, run_bytes};
ghost use Rattle.rx_splice_laws.specs.RunValue.{edits_of_value, in_variant_parts, in_let_parts, ReadEndedRun};
ghost use Rattle.rx_splice_laws.specs.BodyRead.{front_parts, kept_parts, done_parts, OneTail, ReadParts, ReadNewBody};
ghost use Rattle.rx_splice_laws.specs.FrontRead.{ReadFront};
ghost use Rattle.rx_splice_laws.specs.ItemRead.{FormedHeader, pinned_parts, ReadNewItem};
ghost use Rattle.rx_splice_laws.specs.SplicedRun.{between, Part, SplicedRun};

/// Edits of two parts of a text, one after the other: the parts are spliced each for itself.
pub fn parts_are_spliced()
    ensures { (at mid to : ℕ) (t u : List ℕ) (es fs : List Edit) → mid ≡ at + length t → Ordered at es mid → Ordered mid fs to
        → spliced at (t ++ u) (es ++ fs) ≡ spliced at t es ++ spliced mid u fs }
{}

/// The bytes of a run with its edits are pieces, of which the words are derived as what the extraction makes of the run, with at most
/// three times as many levels and 130. The edits stand in order and apart, where characters begin and end.
pub fn runs_are_spliced()
    ensures { (p : ProgramTree) (plan : Plan) (span : Span) (text : List ℕ) (all ts : List Tok) (around : List Around) (ss : List Statement) (o : OptionalExpression) (h : ℕ)
        → FormedPlan p plan → PinsLow plan.pins → Lexes text all → Part all ts → ts ≢ [] → AreStatements ts ss o h
        → SplicedRun p plan span text all ts around ss o h }
{}

/// The bytes of a function's body with its kinds and types written out are pieces, of which the words are derived as the body with
/// what the plan pins.
pub fn pinned_bodies_are_spliced()
    ensures { (p : ProgramTree) (plan : Plan) (span : Span) (text : List ℕ) (all ts : List Tok) (b : Body) (h : ℕ)
        → FormedPlan p plan → PinsLow plan.pins → Lexes text all → Part all ts → ts ≢ [] → IsBlock ts b h → SplicedBody p plan span text all ts b h }
{}

/// The tokens of a run's bytes with its edits, wherever these stand and a blank or nothing follows, are derived as what the extraction
/// makes of the run.
pub fn spliced_runs_are_read()
    ensures { (p : ProgramTree) (plan : Plan) (span : Span) (text : List ℕ) (all ts : List Tok) (around : List Around) (ss : List Statement) (o : OptionalExpression) (h : ℕ)
        → FormedPlan p plan → PinsLow plan.pins → Lexes text all → Part all ts → ts ≢ [] → AreStatements ts ss o h → (at : ℕ)
        → ReadRun p plan span text all ts around ss o h at }
{}

/// The tokens of a body's bytes with its kinds and types written out are derived as the body with what the plan pins.
pub fn pinned_bodies_are_read()
    ensures { (p : ProgramTree) (plan : Plan) (span : Span) (text : List ℕ) (all ts : List Tok) (b : Body) (h : ℕ)
        → FormedPlan p plan → PinsLow plan.pins → Lexes text all → Part all ts → ts ≢ [] → IsBlock ts b h → (at : ℕ) → ReadBody p plan span text all ts b h at }
{}

/// A text whose lines begin otherwise has tokens of the same words.
pub fn lines_begin_otherwise()
    ensures { (indent text : List ℕ) (at : ℕ) (ts : List Tok) → list_all is_level indent ≡ true → Tokens at text ts
        → (place : ℕ) → ReadAs place (reindented indent text) ts }
{}

/// A text that the end of a line follows has its tokens in front of those of what follows.
pub fn texts_go_on()
    ensures { (at : ℕ) (text rest : List ℕ) (ts more : List Tok) → Tokens at text ts → at_line_end rest ≡ true → Tokens (at + length text) rest more
        → Tokens at (text ++ rest) (ts ++ more) }
{}

/// As `spliced_runs_are_read`, where the lines of the run begin otherwise and the end of a line follows.
pub fn run_lines_are_read()
    ensures { (p : ProgramTree) (plan : Plan) (span : Span) (text : List ℕ) (all ts : List Tok) (around : List Around) (ss : List Statement) (o : OptionalExpression) (h : ℕ)
        → FormedPlan p plan → PinsLow plan.pins → Lexes text all → Part all ts → ts ≢ [] → AreStatements ts ss o h
        → (indent : List ℕ) → list_all is_level indent ≡ true → (at : ℕ) → ReadRunLines p plan span text all ts around ss o h at indent }
{}

/// As `spliced_runs_are_read`, of a run whose tail becomes a statement: with the `;` behind its last token.
pub fn done_runs_are_read()
    ensures { (p : ProgramTree) (plan : Plan) (span : Span) (text : List ℕ) (all ts : List Tok) (around : List Around) (ss : List Statement) (x : Expression) (h : ℕ)
        → FormedPlan p plan → PinsLow plan.pins → Lexes text all → Part all ts → ts ≢ [] → AreStatements ts ss (present x) h → (at : ℕ)
        → ReadDoneRun p plan span text all ts around ss x h at }
{}

/// The same of a run with a value, where its tail stands in the variant `Next` of the enum of exits, before the variables that this hands out.
pub fn variant_runs_are_read()
    ensures { (p : ProgramTree) (plan : Plan) (span : Span) (text : List ℕ) (all ts : List Tok) (around : List Around) (ss : List Statement) (x : Expression) (h : ℕ)
        → FormedPlan p plan → PinsLow plan.pins → Lexes text all → Part all ts → ts ≢ [] → AreStatements ts ss (present x) h → (at : ℕ)
        → ReadEndedRun text ts (edits_of_value (moved_by p plan span) all ts around ss x (in_variant plan)) (in_variant_parts p plan span around ss x) h at }
{}

/// The same of a run with a value among several, where its tail is given to a variable of its own, with its type.
pub fn let_runs_are_read()
    ensures { (p : ProgramTree) (plan : Plan) (span : Span) (t : Typ) (out : List ℕ) (outs : Names) (text : List ℕ) (all ts : List Tok) (around : List Around) (ss : List Statement) (x : Expression) (h : ℕ)
        → FormedPlan p plan → PinsLow plan.pins → TypeSpells p t → levels t ≤ 130 → Lexes text all → Part all ts → ts ≢ [] → AreStatements ts ss (present x) h → (at : ℕ)
        → ReadEndedRun text ts (edits_of_value (moved_by p plan span) all ts around ss x (in_tuple p plan span t (out ∷ outs))) (in_let_parts p plan span t around ss x) h at }
{}

/// The bytes of a run with its edits, on lines that begin otherwise and before the end of a line, have tokens that are derived as parts of
/// a body: the run as it is.
pub fn kept_parts_are_read()
    ensures { (p : ProgramTree) (plan : Plan) (span : Span) (text : List ℕ) (all ts : List Tok) (around : List Around) (ss : List Statement) (o : OptionalExpression) (h : ℕ)
        → FormedPlan p plan → PinsLow plan.pins → Lexes text all → Part all ts → ts ≢ [] → AreStatements ts ss o h
        → (indent : List ℕ) → list_all is_level indent ≡ true → (at : ℕ)
        → ReadParts (reindented indent (run_bytes p plan span text all ts around ss o)) (kept_parts p plan span around ss o) h at }
{}

/// The same of the run with its tail as a statement.
pub fn done_parts_are_read()
    ensures { (p : ProgramTree) (plan : Plan) (span : Span) (text : List ℕ) (all ts : List Tok) (around : List Around) (ss : List Statement) (x : Expression) (h : ℕ)
        → FormedPlan p plan → PinsLow plan.pins → Lexes text all → Part all ts → ts ≢ [] → AreStatements ts ss (present x) h
        → (indent : List ℕ) → list_all is_level indent ≡ true → (at : ℕ)
        → ReadParts (reindented indent (spliced (span_of ts).start (between (span_of ts).start (span_of ts).end text) (edits_of_done (moved_by p plan span) all ts around ss x)))
        (done_parts p plan span around ss x) h at }
{}

/// The same of a run with a value, as `variant_runs_are_read` and `let_runs_are_read` give it.
pub fn value_parts_are_read()
    ensures { (text : List ℕ) (ts : List Tok) (es : List Edit) (want : Parts) (h : ℕ) → ReadEndedRun text ts es want h 0
        → (indent : List ℕ) → list_all is_level indent ≡ true → (at : ℕ)
        → ReadParts (reindented indent (spliced (span_of ts).start (between (span_of ts).start (span_of ts).end text) es)) want h at }
{}

/// The body of the new function: the locals, a run whose tokens are derived as parts of it, and a tail behind a run without one, each on
/// lines of its own and in braces, have tokens that are derived as the block of these.
pub fn new_bodies_are_read()
    ensures { (p : ProgramTree) (span : Span) (locals : List Variable) (run : List ℕ) (want : Parts) (o : OptionalExpression) (h : ℕ)
        → Every (VariableSpells p) locals → Every (λ (v : Variable). levels v.typ ≤ 130) locals → OneTail want.tail o → FormedOptional o → tail_levels o ≤ 131
        → ((k : ℕ) → ReadParts run want h k) → (at : ℕ) → ReadNewBody span (declared p span locals) run want o h at }
{}

/// The same of a run whose last statement is an expression that ends in a block, without `;`: it is the tail of the parts, or gets its `;`.
pub fn open_runs_are_read()
    ensures tail { (p : ProgramTree) (plan : Plan) (span : Span) (text : List ℕ) (all ts : List Tok) (around : List Around) (ss : List Statement) (h : ℕ)
        → FormedPlan p plan → PinsLow plan.pins → Lexes text all → Part all ts → ts ≢ [] → Fronts ts ss h → is_open ss ≡ true
        → (indent : List ℕ) → list_all is_level indent ≡ true → (at : ℕ)
        → ReadParts (reindented indent (run_bytes p plan span text all ts around ss absent)) (last_of false (listed (moved_statements p plan span around (statements_of ss)))) h at }
    ensures statement { (p : ProgramTree) (plan : Plan) (span : Span) (text : List ℕ) (all ts : List Tok) (around : List Around) (ss : List Statement) (h : ℕ)
        → FormedPlan p plan → PinsLow plan.pins → Lexes text all → Part all ts → ts ≢ [] → Fronts ts ss h → is_open ss ≡ true
        → (indent : List ℕ) → list_all is_level indent ≡ true → (at : ℕ)
        → ReadParts (reindented indent (spliced (span_of ts).start (between (span_of ts).start (span_of ts).end text) (edits_of_open (moved_by p plan span) all ts around ss)))
        (last_of true (listed (moved_statements p plan span around (statements_of ss)))) h at }
{}

/// The same of a run that a tail follows, which may end with an expression that ends in a block, without `;`.
pub fn front_parts_are_read()
    ensures { (p : ProgramTree) (plan : Plan) (span : Span) (text : List ℕ) (all ts : List Tok) (around : List Around) (ss : List Statement) (h : ℕ)
        → FormedPlan p plan → PinsLow plan.pins → Lexes text all → Part all ts → ts ≢ [] → Fronts ts ss h
        → (indent : List ℕ) → list_all is_level indent ≡ true → (at : ℕ)
        → ReadFront (reindented indent (run_bytes p plan span text all ts around ss absent)) (listed (moved_statements p plan span around (statements_of ss))) h at }
{}

/// As `new_bodies_are_read`, of a tail behind such a run.
pub fn front_bodies_are_read()
    ensures { (p : ProgramTree) (span : Span) (locals : List Variable) (run : List ℕ) (ss : List Statement) (x : Expression) (h : ℕ)
        → Every (VariableSpells p) locals → Every (λ (v : Variable). levels v.typ ≤ 130) locals → Formed x → tail_levels (present x) ≤ 131
        → ((k : ℕ) → ReadFront run ss h k) → (at : ℕ) → ReadNewBody span (declared p span locals) run (front_parts ss) (present x) h at }
{}

/// The body of the new function by the end of the run (`end_by`): the locals, the run with its edits and with what this end puts round its
/// tail or behind it, and this end's tail have tokens that are derived as the body that the extraction makes.
pub fn whole_bodies_are_read()
    ensures { (p : ProgramTree) (plan : Plan) (span : Span) (text : List ℕ) (all ts : List Tok) (around : List Around) (ss : List Statement) (o : OptionalExpression) (h : ℕ)
        → FormedPlan p plan → PinsLow plan.pins → ValueLow plan.value → Every (λ (v : Variable). levels v.typ ≤ 130) plan.locals
        → Lexes text all → Part all ts → ts ≢ [] → RunTokens ts ss o h → (indent : List ℕ) → list_all is_level indent ≡ true → (at : ℕ)
        → ReadWholeBody span (declared p span plan.locals)
        (run_on_lines indent text ts (edits_by_end (moved_by p plan span) all ts around ss o (end_by p plan span plan.value ss o)))
        (end_by p plan span plan.value ss o).tail
        (ended p plan span plan.value (listed (moved_statements p plan span around (statements_of ss))) (moved_tail p plan span around (statements_of ss) o) (next_outs plan span)) h at }
{}

/// The new function: its header and its body, as `whole_bodies_are_read` gives it, have tokens that are derived as the function with them.
pub fn new_items_are_read()
    ensures { (f : Function) (locals : List Statement) (span : Span) (run : List ℕ) (o : OptionalExpression) (want : Parts) (h : ℕ)
        → FormedHeader f → f.body ≡ block_of span (behind_locals locals want) → ((k : ℕ) → ReadWholeBody span locals run o want h k)
        → (at : ℕ) → ReadNewItem f locals run o h at }
{}

/// The new function of the extraction, with its run pinned and moved: its header, and its body as in `whole_bodies_are_read`, have tokens
/// that are derived as it.
pub fn new_functions_are_read()
    ensures { (p : ProgramTree) (plan : Plan) (bounds : Bounds) (span : Span) (text : List ℕ) (all ts : List Tok) (around : List Around) (ss : List Statement) (o : OptionalExpression) (h : ℕ)
        → FormedPlan p plan → PinsLow plan.pins → ValueLow plan.value → Every (λ (v : Variable). levels v.typ ≤ 130) plan.locals
        → FormedHeader (new_function p plan bounds span around (pinned_parts p plan span around ss o))
        → Lexes text all → Part all ts → ts ≢ [] → RunTokens ts ss o h → (indent : List ℕ) → list_all is_level indent ≡ true → (at : ℕ)
        → ReadNewItem (new_function p plan bounds span around (pinned_parts p plan span around ss o)) (declared p span plan.locals)
        (run_on_lines indent text ts (edits_by_end (moved_by p plan span) all ts around ss o (end_by p plan span plan.value ss o)))
        (end_by p plan span plan.value ss o).tail h at }
{}
