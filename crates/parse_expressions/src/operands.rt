//! What expressions begin with (C11 6.5.1 to 6.5.4).

ghost use Rattle.std.specs.Prelude.{◌≡◌, ◌≤◌, ◌<◌, ◌+◌, suc, max, ◌∷◌, List, Some, false, IfOk, IsTrue, IsFalse};
ghost use Rattle.c_tokens.specs.declared.puncts.Punct.TheVariants as p;
ghost use Rattle.c_tokens.specs.declared.tokens.Token.{Token};
ghost use Rattle.c_tree.specs.declared.nodes.ExprKind.TheVariants as e;
ghost use Rattle.parse_meaning.specs.declared.terminals.Terminal.TheVariants as k;
ghost use Rattle.parse_meaning.specs.Terminals.{Lexeme, at};
ghost use Rattle.parse_meaning.specs.Expressions as grammar;
ghost use Rattle.parse_reading.specs.Reading as spec;
ghost use Rattle.parse_tokens.specs.Rooms.{height_room};
ghost use Rattle.parse_tokens.specs.Gives.{Gives};
ghost use Rattle.parse_operations.specs.LeftOperands.{GivesLeftOperand, as_left_operand};
ghost use Rattle.parse_type_names.specs.Nests.{Nests};
ghost use Rattle.parse_expressions.specs.Openings.{opens_group, closed_type, converted, sized_type, sized, comma_ended, paren_ended, size_called};

use crate::terms::Terms;
use c_tokens::{Punct, Token, TokenKind};
use c_tree::{Expr, ExprKind, PrefixOp, TypeName};
use fc_base::Place;
use parse_leaves::{boxed_behind, strings};
use parse_meaning::{Keyword, Terminal};
use parse_operations::{LeftOperand, boxed_pair};
use parse_operators::{ASSIGNMENT, CAST, CONDITIONAL, EXPRESSION, POSTFIX, PRIMARY, UNARY};
use parse_tokens::{ParseFault, Tokens, WithHeight, before_comma, before_right_paren, copy_text};
use std::alloc::{AllocError, Global};
use tree_drops::{IntoBox, both};

/// A unary operator, and the level of its operand (C11 6.5.3).
fn prefix_operator(punct: Punct) -> Option<(PrefixOp, u8)>
    ensures { result ≡ grammar.prefix_operator punct }
{
    match punct {
        Punct::PlusPlus => Some((PrefixOp::Increment, UNARY)),
        Punct::MinusMinus => Some((PrefixOp::Decrement, UNARY)),
        Punct::Ampersand => Some((PrefixOp::Address, CAST)),
        Punct::Star => Some((PrefixOp::Indirection, CAST)),
        Punct::Plus => Some((PrefixOp::Plus, CAST)),
        Punct::Minus => Some((PrefixOp::Minus, CAST)),
        Punct::Tilde => Some((PrefixOp::BitNot, CAST)),
        Punct::Exclamation => Some((PrefixOp::Not, CAST)),
        _ => None,
    }
}

/// A number or a character constant (C11 6.4.4).
fn constant_of(kind: &TokenKind) -> Option<ExprKind>
    ensures { result ≡ grammar.constant_of kind.now }
{
    match kind {
        TokenKind::Number { value, kind } => Some(ExprKind::Number {
            value: *value,
            kind: *kind,
        }),
        TokenKind::CharConst(byte) => Some(ExprKind::CharConst(*byte)),
        _ => None,
    }
}

/// `(T) a`
fn cast(
    alloc: Global,
    to: WithHeight<TypeName>,
    of: WithHeight<Expr>,
    place: Place,
) -> Result<LeftOperand, AllocError>
    requires to { to.height < height_room }
    requires of { of.height < height_room }
    ensures { IfOk result (λ x. x ≡ record { level = 3; tree = grammar.expr (e.Cast to.tree of.tree) place; height = suc (max to.height of.height) }) }
{
    let height = to.height.max(of.height) + 1;
    let (to, of) = boxed_behind(alloc, to.tree, of.tree)?;
    Ok(LeftOperand::new(CAST, ExprKind::Cast { to, of }, place, height))
}

/// `__builtin_dynamic_object_size (a, b)`
fn size_call(
    alloc: Global,
    pointer: WithHeight<Expr>,
    mode: WithHeight<Expr>,
    place: Place,
) -> Result<LeftOperand, AllocError>
    requires pointer { pointer.height < height_room }
    requires mode { mode.height < height_room }
    ensures { IfOk result (λ x. x ≡ record { level = 1; tree = grammar.expr (e.SizeCall pointer.tree mode.tree) place; height = suc (max pointer.height mode.height) }) }
{
    let height = pointer.height.max(mode.height) + 1;
    let (pointer, mode) = boxed_pair(alloc, pointer.tree, mode.tree)?;
    Ok(LeftOperand::new(POSTFIX, ExprKind::SizeCall { pointer, mode }, place, height))
}

/// Takes a parenthesis without the name of a type behind it, if one comes next.
fn take_group(tokens: &mut Tokens<'_>) -> bool
    ensures taken { IsTrue result → (o : Token) × (tokens.old ≡ at (k.Punct p.LeftParen) o ∷ tokens.new) × (spec.begins_spec tokens.new ≡ false) }
    ensures other { IsFalse result → (opens_group tokens.old ≡ false) × (tokens.new ≡ tokens.old) }
{
    match tokens.peek() {
        Some(Terminal::Punct(Punct::LeftParen)) => {
            let mut ahead = tokens.fork();
            ahead.next();
            if ahead.begins_spec() {
                false
            } else {
                tokens.next();
                true
            }
        }
        _ => false,
    }
}

impl<F: Fn(Global, &mut Tokens<'_>, usize, u8) -> Result<WithHeight<Expr>, ParseFault>> Terms<F> {
    fn constant(&self, token: &Token) -> Result<LeftOperand, ParseFault>
        ensures reads { (t : List Lexeme) → GivesLeftOperand (spec.constant_read self.now.grammar.depth (spec.expression self.now.grammar.depth) (grammar.constant_of token.now.kind) token.now.place t) result t }
        ensures low { IfOk result (λ x. x.height ≤ 1) }
    {
        match constant_of(&token.kind) {
            Some(kind) => Ok(LeftOperand::new(PRIMARY, kind, token.place, 1)),
            None => Err(ParseFault::NoDerivation),
        }
    }

    /// `T)`
    fn closed_type(&self, tokens: &mut Tokens<'_>) -> Result<WithHeight<TypeName>, ParseFault>
        requires { Nests self.now.grammar.depth (F.pre self.now.grammar.expr) (F.post self.now.grammar.expr) }
        ensures reads { Gives (closed_type self.now.grammar.depth (spec.expression self.now.grammar.depth) tokens.old) result tokens.new }
        ensures low { IfOk result (λ x. x.height ≤ self.now.grammar.depth) }
    {
        let name = self.grammar.type_name(tokens)?;
        before_right_paren(tokens, name)
    }

    /// `(T) a` behind its first bracket (C11 6.5.4).
    fn converted(&self, tokens: &mut Tokens<'_>, place: Place) -> Result<LeftOperand, ParseFault>
        requires { Nests self.now.grammar.depth (F.pre self.now.grammar.expr) (F.post self.now.grammar.expr) }
        ensures reads { GivesLeftOperand (converted self.now.grammar.depth (spec.expression self.now.grammar.depth) place tokens.old) result tokens.new }
        ensures low { IfOk result (λ x. x.height ≤ self.now.grammar.depth + 1) }
    {
        let to = self.closed_type(tokens)?;
        let of = self.grammar.expression(tokens, CAST);
        let (to, of) = both(to, of)?;
        Ok(cast(self.grammar.alloc, to, of, place)?)
    }

    /// `sizeof (T)` behind its bracket (C11 6.5.3.4).
    fn sized_type(&self, tokens: &mut Tokens<'_>, place: Place) -> Result<LeftOperand, ParseFault>
        requires { Nests self.now.grammar.depth (F.pre self.now.grammar.expr) (F.post self.now.grammar.expr) }
        ensures reads { GivesLeftOperand (sized_type self.now.grammar.depth (spec.expression self.now.grammar.depth) place tokens.old) result tokens.new }
        ensures low { IfOk result (λ x. x.height ≤ self.now.grammar.depth + 1) }
    {
        let of = self.closed_type(tokens)?;
        Ok(LeftOperand::new(UNARY, ExprKind::SizeofType(of.tree), place, of.height + 1))
    }

    /// `sizeof a` behind the word (C11 6.5.3.4).
    #[tactic(auto, unfolding(parse_reading::specs::Reading::sized_expr))]
    fn sized_expr(&self, tokens: &mut Tokens<'_>, place: Place) -> Result<LeftOperand, ParseFault>
        requires { Nests self.now.grammar.depth (F.pre self.now.grammar.expr) (F.post self.now.grammar.expr) }
        ensures reads { GivesLeftOperand (spec.sized_expr self.now.grammar.depth (spec.expression self.now.grammar.depth) place tokens.old) result tokens.new }
        ensures low { IfOk result (λ x. x.height ≤ self.now.grammar.depth + 1) }
    {
        let of = self.grammar.expression(tokens, UNARY)?;
        let height = of.height + 1;
        let of = Expr::boxed(self.grammar.alloc, of.tree)?;
        Ok(LeftOperand::new(UNARY, ExprKind::SizeofExpr(of), place, height))
    }

    /// `sizeof (T)` or `sizeof a` behind the word (C11 6.5.3.4): the first where a bracket comes next, and a specifier
    /// behind it.
    fn sized(&self, tokens: &mut Tokens<'_>, place: Place) -> Result<LeftOperand, ParseFault>
        requires { Nests self.now.grammar.depth (F.pre self.now.grammar.expr) (F.post self.now.grammar.expr) }
        ensures reads { GivesLeftOperand (sized self.now.grammar.depth (spec.expression self.now.grammar.depth) place tokens.old) result tokens.new }
        ensures low { IfOk result (λ x. x.height ≤ self.now.grammar.depth + 1) }
    {
        match tokens.peek() {
            Some(Terminal::Punct(Punct::LeftParen)) => {
                let mut ahead = tokens.fork();
                ahead.next();
                if ahead.begins_spec() {
                    tokens.next();
                    self.sized_type(tokens, place)
                } else {
                    self.sized_expr(tokens, place)
                }
            }
            _ => self.sized_expr(tokens, place),
        }
    }

    /// `(a,`
    fn comma_ended(&self, tokens: &mut Tokens<'_>) -> Result<WithHeight<Expr>, ParseFault>
        requires { Nests self.now.grammar.depth (F.pre self.now.grammar.expr) (F.post self.now.grammar.expr) }
        ensures reads { Gives (comma_ended self.now.grammar.depth (spec.expression self.now.grammar.depth) tokens.old) result tokens.new }
        ensures low { IfOk result (λ x. x.height ≤ self.now.grammar.depth) }
    {
        tokens.expect_left_paren()?;
        let pointer = self.grammar.expression(tokens, ASSIGNMENT)?;
        before_comma(tokens, pointer)
    }

    /// `b)`
    fn paren_ended(&self, tokens: &mut Tokens<'_>) -> Result<WithHeight<Expr>, ParseFault>
        requires { Nests self.now.grammar.depth (F.pre self.now.grammar.expr) (F.post self.now.grammar.expr) }
        ensures reads { Gives (paren_ended self.now.grammar.depth (spec.expression self.now.grammar.depth) tokens.old) result tokens.new }
        ensures low { IfOk result (λ x. x.height ≤ self.now.grammar.depth) }
    {
        let mode = self.grammar.expression(tokens, CONDITIONAL)?;
        before_right_paren(tokens, mode)
    }

    /// `__builtin_dynamic_object_size (a, b)` behind the word (GCC manual, "Object Size Checking").
    fn size_called(&self, tokens: &mut Tokens<'_>, place: Place) -> Result<LeftOperand, ParseFault>
        requires { Nests self.now.grammar.depth (F.pre self.now.grammar.expr) (F.post self.now.grammar.expr) }
        ensures reads { GivesLeftOperand (size_called self.now.grammar.depth (spec.expression self.now.grammar.depth) place tokens.old) result tokens.new }
        ensures low { IfOk result (λ x. x.height ≤ self.now.grammar.depth + 1) }
    {
        let pointer = self.comma_ended(tokens)?;
        let mode = self.paren_ended(tokens);
        let (pointer, mode) = both(pointer, mode)?;
        Ok(size_call(self.grammar.alloc, pointer, mode, place)?)
    }

    /// `-a` behind its operator (C11 6.5.3).
    #[tactic(auto, unfolding(parse_reading::specs::Reading::prefixed_by))]
    fn prefixed(
        &self,
        tokens: &mut Tokens<'_>,
        punct: Punct,
        place: Place,
    ) -> Result<LeftOperand, ParseFault>
        requires { Nests self.now.grammar.depth (F.pre self.now.grammar.expr) (F.post self.now.grammar.expr) }
        ensures reads { GivesLeftOperand (spec.prefixed_of self.now.grammar.depth (spec.expression self.now.grammar.depth) (grammar.prefix_operator punct) place tokens.old) result tokens.new }
        ensures low { IfOk result (λ x. x.height ≤ self.now.grammar.depth + 1) }
    {
        match prefix_operator(punct) {
            Some((op, level)) => {
                let of = self.grammar.expression(tokens, level)?;
                let height = of.height + 1;
                let of = Expr::boxed(self.grammar.alloc, of.tree)?;
                Ok(LeftOperand::new(UNARY, ExprKind::Prefix { op, of }, place, height))
            }
            None => Err(ParseFault::NoDerivation),
        }
    }

    /// What an expression begins with, but for a parenthesis round an expression.
    #[tactic(auto, unfolding(parse_reading::specs::Reading::prefix))]
    fn operand(&self, tokens: &mut Tokens<'_>) -> Result<LeftOperand, ParseFault>
        requires nests { Nests self.now.grammar.depth (F.pre self.now.grammar.expr) (F.post self.now.grammar.expr) }
        requires plain { opens_group tokens.old ≡ false }
        ensures reads { GivesLeftOperand (spec.prefix self.now.grammar.depth (spec.expression self.now.grammar.depth) tokens.old) result tokens.new }
        ensures low { IfOk result (λ x. x.height ≤ self.now.grammar.depth + 1) }
    {
        match tokens.next() {
            Some((Terminal::Name, token)) => {
                let name = copy_text(self.grammar.alloc, token)?;
                Ok(LeftOperand::new(PRIMARY, ExprKind::Name(name), token.place, 1))
            }
            Some((Terminal::Constant, token)) => self.constant(token),
            Some((Terminal::Str, token)) => {
                let text = strings(self.grammar.alloc, tokens, token)?;
                Ok(LeftOperand::new(PRIMARY, ExprKind::Str(text), token.place, 1))
            }
            Some((Terminal::Word(Keyword::Sizeof), token)) => self.sized(tokens, token.place),
            Some((Terminal::Word(Keyword::DynamicObjectSize), token)) => {
                self.size_called(tokens, token.place)
            }
            Some((Terminal::Punct(Punct::LeftParen), token)) => self.converted(tokens, token.place),
            Some((Terminal::Punct(punct), token)) => self.prefixed(tokens, punct, token.place),
            _ => Err(ParseFault::NoDerivation),
        }
    }

    /// `(a)`, where what stands behind the bracket has begun so (C11 6.5.1).
    #[tactic(auto, unfolding(parse_reading::specs::Reading::parenthesised))]
    fn parenthesised(
        &self,
        tokens: &mut Tokens<'_>,
        start: Place,
        first: LeftOperand,
    ) -> Result<LeftOperand, ParseFault>
        requires nests { Nests self.now.grammar.depth (F.pre self.now.grammar.expr) (F.post self.now.grammar.expr) }
        requires low { first.height ≤ self.now.grammar.depth + 1 }
        ensures reads { GivesLeftOperand (spec.parenthesised self.now.grammar.depth (spec.expression self.now.grammar.depth) (Some (as_left_operand first tokens.old)) start) result tokens.new }
        ensures low { IfOk result (λ x. x.height ≤ self.now.grammar.depth + 1) }
    {
        let inner = self.begun(tokens, EXPRESSION, start, first)?;
        let inner = before_right_paren(tokens, inner)?;
        Ok(LeftOperand {
            level: PRIMARY,
            tree: inner.tree,
            height: inner.height,
        })
    }

    /// What an expression begins with. Parentheses that stand directly in one another are read by a loop.
    fn prefix(&self, tokens: &mut Tokens<'_>) -> Result<LeftOperand, ParseFault>
        requires { Nests self.now.grammar.depth (F.pre self.now.grammar.expr) (F.post self.now.grammar.expr) }
        ensures reads { GivesLeftOperand (spec.prefix self.now.grammar.depth (spec.expression self.now.grammar.depth) tokens.old) result tokens.new }
        ensures low { IfOk result (λ x. x.height ≤ self.now.grammar.depth + 1) }
    {
        let mut starts = Vec::new(self.grammar.alloc);
        while take_group(tokens) {
            starts.push(tokens.place())?;
        }
        let mut left = self.operand(tokens)?;
        while let Some(start) = starts.pop() {
            left = self.parenthesised(tokens, start, left)?;
        }
        Ok(left)
    }

    /// An expression of a level, one node higher than its parts at most.
    pub fn level_up_to(
        &self,
        tokens: &mut Tokens<'_>,
        level: u8,
    ) -> Result<WithHeight<Expr>, ParseFault>
        requires { Nests self.now.grammar.depth (F.pre self.now.grammar.expr) (F.post self.now.grammar.expr) }
        ensures reads { Gives (spec.level_up_to self.now.grammar.depth (spec.expression self.now.grammar.depth) level tokens.old) result tokens.new }
        ensures low { IfOk result (λ x. x.height ≤ self.now.grammar.depth + 1) }
    {
        let start = tokens.place();
        let first = self.prefix(tokens)?;
        self.begun(tokens, level, start, first)
    }
}
