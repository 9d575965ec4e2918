//! Primaries that begin with a name: variables, calls, variants, structs and what prints a value.

ghost use Rattle.std.specs.Prelude.{◌≤◌, ◌<◌, ◌+◌, IfOk};
ghost use Rattle.rx_tree.specs.declared.tree.Ident.{Ident};
ghost use Rattle.rx_tree.specs.Plain.{Expression};
ghost use Rattle.rx_tree.specs.PlainOf.{plain-Expr, plain-FieldExpr};
ghost use Rattle.rx_lex.specs.Tok.{tok};
ghost use Rattle.rx_parse_grammar.specs.declared.symbol.Symbol.TheVariants as symbol;
ghost use Rattle.rx_parse_grammar.specs.parser.Symbols.{peek};
ghost use Rattle.rx_parse_grammar.specs.parser.Steps.{ReadsAs};
ghost use Rattle.rx_parse_grammar.specs.parser.Expressions as spec;
ghost use Rattle.rx_parse_grammar.specs.parser.Blocks.{whole};
ghost use Rattle.rx_parse_cursor.specs.GotOf.{got_of};
ghost use Rattle.rx_parse_expressions.specs.Nests.{Nests};

use crate::level::Level;
use rx_core::keep;
use rx_lex::Token;
use rx_parse_choices::{Wanted, is_input, is_println};
use rx_parse_cursor::{Cursor, Found, Got, Reader, elements, join, some_elements};
use rx_parse_grammar::{Stop, Symbol};
use rx_parse_nodes::{
    bare_variant, call_of, field_value_of, input_of, print_of, short_field, struct_of, variable,
    variant_of,
};
use rx_tree::{Expr, FieldExpr};
use std::alloc::Global;

/// The fields of a struct, with values of this level.
#[derive(Clone, Copy)]
struct Fields<F> {
    level: Level<F>,
}

impl<F: Fn(Global, &mut Cursor<'_>, usize, Wanted) -> Result<Got<Expr>, Stop>> Reader for Level<F> {
    type Item = Expr;

    ghost Tree = { Expression };

    ghost plain = { plain-Expr };

    ghost ready = { λ l. Nests l.below (F.pre l.expression) (F.post l.expression) };

    ghost most = { λ l. l.below };

    ghost parser = { λ l. whole l.below };

    fn read(&self, _alloc: Global, cursor: &mut Cursor<'_>) -> Result<Got<Expr>, Stop> {
        self.expression(cursor, Wanted::Whole)
    }
}

impl<F: Fn(Global, &mut Cursor<'_>, usize, Wanted) -> Result<Got<Expr>, Stop>> Level<F> {
    /// The arguments of a call, behind its name.
    #[tactic(auto, unfolding(rx_parse_grammar::specs::parser::Expressions::call))]
    fn call(&self, cursor: &mut Cursor<'_>, name: Token<'_>) -> Result<Got<Expr>, Stop>
        requires nests { Nests self.now.below (F.pre self.now.expression) (F.post self.now.expression) }
        ensures reads { ReadsAs (got_of plain-Expr) (spec.call (whole self.now.below) self.now.below (tok name.entry) cursor.old) result cursor.new }
        ensures low { IfOk result (λ x. x.height ≤ self.now.below + 1) }
    {
        cursor.expect(Symbol::OpenParen)?;
        let found = Found::new(self.alloc);
        let items = elements(self.alloc, cursor, self, Symbol::CloseParen, found)?;
        Ok(call_of(self.alloc, name, items)?)
    }

    /// What prints a value, behind the name.
    #[tactic(auto, unfolding(rx_parse_grammar::specs::parser::Expressions::print))]
    fn print(&self, cursor: &mut Cursor<'_>, name: Token<'_>) -> Result<Got<Expr>, Stop>
        requires nests { Nests self.now.below (F.pre self.now.expression) (F.post self.now.expression) }
        ensures reads { ReadsAs (got_of plain-Expr) (spec.print (whole self.now.below) self.now.below (tok name.entry) cursor.old) result cursor.new }
        ensures low { IfOk result (λ x. x.height ≤ self.now.below + 1) }
    {
        if self.below < 1 {
            return Err(cursor.too_deep());
        }
        cursor.expect(Symbol::Bang)?;
        cursor.expect(Symbol::OpenParen)?;
        cursor.expect(Symbol::Format)?;
        cursor.expect(Symbol::Comma)?;
        let value = self.expression(cursor, Wanted::Whole)?;
        let (close, value) = keep(value, cursor.expect(Symbol::CloseParen))?;
        Ok(print_of(self.alloc, join(name.span, close.span), value)?)
    }

    /// The arguments of a variant, behind the opening parenthesis.
    #[tactic(auto, unfolding(rx_parse_grammar::specs::parser::Expressions::variant_arguments))]
    fn variant_arguments(
        &self,
        cursor: &mut Cursor<'_>,
        name: Token<'_>,
        variant: Token<'_>,
    ) -> Result<Got<Expr>, Stop>
        requires { Nests self.now.below (F.pre self.now.expression) (F.post self.now.expression) }
        ensures reads { ReadsAs (got_of plain-Expr) (spec.variant_arguments (whole self.now.below) self.now.below (tok name.entry) (tok variant.entry) cursor.old) result cursor.new }
        ensures low { IfOk result (λ x. x.height ≤ self.now.below + 1) }
    {
        let items = some_elements(self.alloc, cursor, self, Symbol::CloseParen)?;
        Ok(variant_of(self.alloc, name, variant, items)?)
    }

    /// The next number of the input, or a variant that is called so, behind the names.
    #[tactic(auto, unfolding(rx_parse_grammar::specs::parser::Expressions::input))]
    fn input(
        &self,
        cursor: &mut Cursor<'_>,
        name: Token<'_>,
        variant: Token<'_>,
    ) -> Result<Got<Expr>, Stop>
        requires { Nests self.now.below (F.pre self.now.expression) (F.post self.now.expression) }
        ensures reads { ReadsAs (got_of plain-Expr) (spec.input (whole self.now.below) self.now.below (tok name.entry) (tok variant.entry) cursor.old) result cursor.new }
        ensures low { IfOk result (λ x. x.height ≤ self.now.below + 1) }
    {
        cursor.expect(Symbol::OpenParen)?;
        if cursor.sees(Symbol::CloseParen) {
            let close = cursor.expect(Symbol::CloseParen)?;
            return Ok(input_of(join(name.span, close.span)));
        }
        self.variant_arguments(cursor, name, variant)
    }

    /// A variant with arguments, behind the names.
    #[tactic(auto, unfolding(rx_parse_grammar::specs::parser::Expressions::variant_with))]
    fn variant_with(
        &self,
        cursor: &mut Cursor<'_>,
        name: Token<'_>,
        variant: Token<'_>,
    ) -> Result<Got<Expr>, Stop>
        requires { Nests self.now.below (F.pre self.now.expression) (F.post self.now.expression) }
        ensures reads { ReadsAs (got_of plain-Expr) (spec.variant_with (whole self.now.below) self.now.below (tok name.entry) (tok variant.entry) cursor.old) result cursor.new }
        ensures low { IfOk result (λ x. x.height ≤ self.now.below + 1) }
    {
        if self.below < 1 {
            return Err(cursor.too_deep());
        }
        cursor.expect(Symbol::OpenParen)?;
        self.variant_arguments(cursor, name, variant)
    }

    /// A variant, behind the name of its enum.
    #[tactic(auto, unfolding(rx_parse_grammar::specs::parser::Expressions::path))]
    fn path(&self, cursor: &mut Cursor<'_>, name: Token<'_>) -> Result<Got<Expr>, Stop>
        requires { Nests self.now.below (F.pre self.now.expression) (F.post self.now.expression) }
        ensures reads { ReadsAs (got_of plain-Expr) (spec.path (whole self.now.below) self.now.below (tok name.entry) cursor.old) result cursor.new }
        ensures low { IfOk result (λ x. x.height ≤ self.now.below + 1) }
    {
        cursor.expect(Symbol::ColonColon)?;
        let variant = cursor.expect(Symbol::Name)?;
        if cursor.sees(Symbol::OpenParen) {
            if is_input(name, variant) {
                return self.input(cursor, name, variant);
            }
            return self.variant_with(cursor, name, variant);
        }
        Ok(bare_variant(self.alloc, name, variant)?)
    }

    /// A field and its value.
    #[tactic(auto, unfolding(rx_parse_grammar::specs::parser::Expressions::field_value))]
    fn field_value(&self, cursor: &mut Cursor<'_>) -> Result<Got<FieldExpr>, Stop>
        requires nests { Nests self.now.below (F.pre self.now.expression) (F.post self.now.expression) }
        requires some { 0 < self.now.below }
        ensures reads { ReadsAs (got_of plain-FieldExpr) (spec.field_value (whole self.now.below) self.now.below cursor.old) result cursor.new }
        ensures low { IfOk result (λ x. x.height ≤ self.now.below) }
    {
        let name = cursor.expect(Symbol::Name)?;
        if cursor.sees(Symbol::Colon) {
            cursor.expect(Symbol::Colon)?;
            let value = self.expression(cursor, Wanted::Whole)?;
            return Ok(field_value_of(self.alloc, name, value)?);
        }
        Ok(short_field(self.alloc, name)?)
    }

    /// A field, which needs a level for its value.
    #[tactic(auto, unfolding(rx_parse_grammar::specs::parser::Expressions::field))]
    fn field(&self, cursor: &mut Cursor<'_>) -> Result<Got<FieldExpr>, Stop>
        requires { Nests self.now.below (F.pre self.now.expression) (F.post self.now.expression) }
        ensures reads { ReadsAs (got_of plain-FieldExpr) (spec.field (whole self.now.below) self.now.below cursor.old) result cursor.new }
        ensures low { IfOk result (λ x. x.height ≤ self.now.below) }
    {
        match cursor.peek() {
            Symbol::Name => {
                if self.below < 1 {
                    return Err(cursor.too_deep());
                }
                self.field_value(cursor)
            }
            _ => Err(cursor.refuse()),
        }
    }
}

impl<F: Fn(Global, &mut Cursor<'_>, usize, Wanted) -> Result<Got<Expr>, Stop>> Reader
    for Fields<F> {
    type Item = FieldExpr;

    ghost Tree = { Ident × Expression };

    ghost plain = { plain-FieldExpr };

    ghost ready = { λ r. Nests r.level.below (F.pre r.level.expression) (F.post r.level.expression) };

    ghost most = { λ r. r.level.below };

    ghost parser = { λ r. spec.field (whole r.level.below) r.level.below };

    fn read(&self, _alloc: Global, cursor: &mut Cursor<'_>) -> Result<Got<FieldExpr>, Stop> {
        self.level.field(cursor)
    }
}

impl<F: Fn(Global, &mut Cursor<'_>, usize, Wanted) -> Result<Got<Expr>, Stop> + Copy> Level<F> {
    /// A struct, behind its name.
    #[tactic(auto, unfolding(rx_parse_grammar::specs::parser::Expressions::struct_literal))]
    fn struct_literal(&self, cursor: &mut Cursor<'_>, name: Token<'_>) -> Result<Got<Expr>, Stop>
        requires { Nests self.now.below (F.pre self.now.expression) (F.post self.now.expression) }
        ensures reads { ReadsAs (got_of plain-Expr) (spec.struct_literal (whole self.now.below) self.now.below (tok name.entry) cursor.old) result cursor.new }
        ensures low { IfOk result (λ x. x.height ≤ self.now.below + 1) }
    {
        cursor.expect(Symbol::OpenBrace)?;
        let found = Found::new(self.alloc);
        let items = elements(
            self.alloc,
            cursor,
            &Fields { level: *self },
            Symbol::CloseBrace,
            found,
        )?;
        Ok(struct_of(self.alloc, name, items)?)
    }

    /// A name with an opening brace behind: a struct, or a variable where no struct literal may stand.
    fn before_brace(
        &self,
        cursor: &mut Cursor<'_>,
        literals: bool,
        name: Token<'_>,
    ) -> Result<Got<Expr>, Stop>
        requires { Nests self.now.below (F.pre self.now.expression) (F.post self.now.expression) }
        ensures reads { ReadsAs (got_of plain-Expr) (spec.named_by (whole self.now.below) self.now.below literals (tok name.entry) symbol.OpenBrace cursor.old) result cursor.new }
        ensures low { IfOk result (λ x. x.height ≤ self.now.below + 1) }
    {
        if literals {
            return self.struct_literal(cursor, name);
        }
        Ok(variable(self.alloc, name)?)
    }

    /// A name with `!` behind: what prints a value, or a variable.
    fn before_bang(
        &self,
        cursor: &mut Cursor<'_>,
        literals: bool,
        name: Token<'_>,
    ) -> Result<Got<Expr>, Stop>
        requires { Nests self.now.below (F.pre self.now.expression) (F.post self.now.expression) }
        ensures reads { ReadsAs (got_of plain-Expr) (spec.named_by (whole self.now.below) self.now.below literals (tok name.entry) symbol.Bang cursor.old) result cursor.new }
        ensures low { IfOk result (λ x. x.height ≤ self.now.below + 1) }
    {
        if is_println(name) {
            return self.print(cursor, name);
        }
        Ok(variable(self.alloc, name)?)
    }

    /// What a name is, by what stands behind it.
    fn behind_name(
        &self,
        cursor: &mut Cursor<'_>,
        literals: bool,
        name: Token<'_>,
    ) -> Result<Got<Expr>, Stop>
        requires { Nests self.now.below (F.pre self.now.expression) (F.post self.now.expression) }
        ensures reads { ReadsAs (got_of plain-Expr) (spec.named_by (whole self.now.below) self.now.below literals (tok name.entry) (peek cursor.old) cursor.old) result cursor.new }
        ensures low { IfOk result (λ x. x.height ≤ self.now.below + 1) }
    {
        match cursor.peek() {
            Symbol::OpenParen => self.call(cursor, name),
            Symbol::ColonColon => self.path(cursor, name),
            Symbol::OpenBrace => self.before_brace(cursor, literals, name),
            Symbol::Bang => self.before_bang(cursor, literals, name),
            _ => Ok(variable(self.alloc, name)?),
        }
    }

    /// A primary that begins with a name.
    #[tactic(auto, unfolding(rx_parse_grammar::specs::parser::Expressions::named))]
    pub fn named(&self, cursor: &mut Cursor<'_>, literals: bool) -> Result<Got<Expr>, Stop>
        requires { Nests self.now.below (F.pre self.now.expression) (F.post self.now.expression) }
        ensures reads { ReadsAs (got_of plain-Expr) (spec.named (whole self.now.below) self.now.below literals cursor.old) result cursor.new }
        ensures low { IfOk result (λ x. x.height ≤ self.now.below + 1) }
    {
        let name = cursor.expect(Symbol::Name)?;
        self.behind_name(cursor, literals, name)
    }
}
