//! How expressions go on (C11 6.5.2 and 6.5.5 to 6.5.17).

ghost use Rattle.std.specs.Prelude.{◌≡◌, ◌≤◌, ◌<◌, ◌+◌, Some, IfOk};
ghost use Rattle.parse_meaning.specs.Terminals.{place_of};
ghost use Rattle.parse_reading.specs.Reading as spec;
ghost use Rattle.parse_tokens.specs.Gives.{Gives, GivesPart};
ghost use Rattle.parse_operations.specs.LeftOperands.{GivesLeftOperand, as_left_operand};
ghost use Rattle.parse_operations.specs.Operations.{FitsOperation};
ghost use Rattle.parse_type_names.specs.Nests.{Nests};
ghost use Rattle.parse_expressions.specs.Operations.{bracketed, arguments_some, arguments, colon_ended, member_tail, choice_tail, tail_of, tail_behind, next_operator, behind_next, go_on};

use crate::terms::Terms;
use c_tokens::Punct;
use c_tree::Expr;
use fc_base::Place;
use parse_meaning::Terminal;
use parse_operations::{LeftOperand, Operation, with_operation};
use parse_operators::{ASSIGNMENT, CONDITIONAL, EXPRESSION, binds, operator_of, operator_takes};
use parse_reading::Operator;
use parse_tokens::{
    ParseFault, Tokens, WithHeight, before_colon, before_right_bracket, before_right_paren,
    copy_text, is_tag, kept,
};
use sqlite_items::Items;
use std::alloc::Global;
use tree_drops::{ExprItems, both};

/// `b` or the like behind `.` or `->`.
fn member_tail(alloc: Global, tokens: &mut Tokens<'_>, arrow: bool) -> Result<Operation, ParseFault>
    ensures reads { GivesPart (member_tail arrow tokens.old) result tokens.new }
    ensures low { IfOk result FitsOperation }
{
    match tokens.next() {
        Some((terminal, token)) if is_tag(terminal) => Ok(Operation::Member {
            arrow,
            name: copy_text(alloc, token)?,
            place: token.place,
        }),
        _ => Err(ParseFault::NoDerivation),
    }
}

/// What the next token does to an expression before it, and the token's place. The expression ends where none is left.
fn next_operator(tokens: &mut Tokens<'_>) -> (Operator, Place)
    ensures role { result.0 ≡ next_operator tokens.old }
    ensures low { spec.operator_binds result.0 ≤ 17 }
    ensures place { result.1 ≡ place_of tokens.old }
    ensures rest { tokens.new ≡ behind_next tokens.old }
{
    let place = tokens.place();
    match tokens.next() {
        Some((terminal, _)) => (operator_of(terminal), place),
        None => (Operator::End, place),
    }
}

impl<F: Fn(Global, &mut Tokens<'_>, usize, u8) -> Result<WithHeight<Expr>, ParseFault>> Terms<F> {
    /// One expression of the level of assignments or more, with commas between them, by so many turns at most.
    fn exprs(
        &self,
        tokens: &mut Tokens<'_>,
        turns: usize,
    ) -> Result<WithHeight<Items<Expr>>, ParseFault>
        requires { Nests self.now.grammar.depth (F.pre self.now.grammar.expr) (F.post self.now.grammar.expr) }
        ensures reads { Gives (spec.exprs self.now.grammar.depth (spec.expression self.now.grammar.depth) turns tokens.old) result tokens.new }
        ensures low { IfOk result (λ x. x.height ≤ self.now.grammar.depth) }
    {
        let mut trees = ExprItems::new(self.grammar.alloc);
        let mut height = 0;
        for _turn in 0..turns {
            let one = self.grammar.expression(tokens, ASSIGNMENT)?;
            trees.push(one.tree)?;
            height = height.max(one.height);
            if !tokens.take_comma() {
                return Ok(WithHeight {
                    tree: trees.finish(),
                    height,
                });
            }
        }
        Err(ParseFault::NoDerivation)
    }

    fn arguments_some(&self, tokens: &mut Tokens<'_>) -> Result<WithHeight<Items<Expr>>, ParseFault>
        requires { Nests self.now.grammar.depth (F.pre self.now.grammar.expr) (F.post self.now.grammar.expr) }
        ensures reads { Gives (arguments_some self.now.grammar.depth (spec.expression self.now.grammar.depth) tokens.old) result tokens.new }
        ensures low { IfOk result (λ x. x.height ≤ self.now.grammar.depth) }
    {
        let turns = tokens.left();
        let args = self.exprs(tokens, turns)?;
        before_right_paren(tokens, args)
    }

    /// `b, c)`
    fn arguments(&self, tokens: &mut Tokens<'_>) -> Result<WithHeight<Items<Expr>>, ParseFault>
        requires { Nests self.now.grammar.depth (F.pre self.now.grammar.expr) (F.post self.now.grammar.expr) }
        ensures reads { Gives (arguments self.now.grammar.depth (spec.expression self.now.grammar.depth) tokens.old) result tokens.new }
        ensures low { IfOk result (λ x. x.height ≤ self.now.grammar.depth) }
    {
        match tokens.peek() {
            Some(Terminal::Punct(Punct::RightParen)) => {
                tokens.next();
                Ok(WithHeight {
                    tree: Items::new(self.grammar.alloc),
                    height: 0,
                })
            }
            _ => self.arguments_some(tokens),
        }
    }

    /// `b]`
    fn bracketed(&self, tokens: &mut Tokens<'_>) -> Result<WithHeight<Expr>, ParseFault>
        requires { Nests self.now.grammar.depth (F.pre self.now.grammar.expr) (F.post self.now.grammar.expr) }
        ensures reads { Gives (bracketed self.now.grammar.depth (spec.expression self.now.grammar.depth) tokens.old) result tokens.new }
        ensures low { IfOk result (λ x. x.height ≤ self.now.grammar.depth) }
    {
        let index = self.grammar.expression(tokens, EXPRESSION)?;
        before_right_bracket(tokens, index)
    }

    /// `b :`
    fn colon_ended(&self, tokens: &mut Tokens<'_>) -> Result<WithHeight<Expr>, ParseFault>
        requires { Nests self.now.grammar.depth (F.pre self.now.grammar.expr) (F.post self.now.grammar.expr) }
        ensures reads { Gives (colon_ended self.now.grammar.depth (spec.expression self.now.grammar.depth) tokens.old) result tokens.new }
        ensures low { IfOk result (λ x. x.height ≤ self.now.grammar.depth) }
    {
        let yes = self.grammar.expression(tokens, EXPRESSION)?;
        before_colon(tokens, yes)
    }

    /// `b : c`
    fn choice_tail(&self, tokens: &mut Tokens<'_>) -> Result<Operation, ParseFault>
        requires { Nests self.now.grammar.depth (F.pre self.now.grammar.expr) (F.post self.now.grammar.expr) }
        ensures reads { GivesPart (choice_tail self.now.grammar.depth (spec.expression self.now.grammar.depth) tokens.old) result tokens.new }
        ensures low { IfOk result FitsOperation }
    {
        let yes = self.colon_ended(tokens)?;
        let no = self.grammar.expression(tokens, CONDITIONAL);
        let (yes, no) = both(yes, no)?;
        Ok(Operation::Choice { yes, no })
    }

    /// What stands behind a token of this role.
    fn tail(&self, tokens: &mut Tokens<'_>, role: Operator) -> Result<Operation, ParseFault>
        requires nests { Nests self.now.grammar.depth (F.pre self.now.grammar.expr) (F.post self.now.grammar.expr) }
        requires role { spec.operator_binds role ≤ 17 }
        ensures reads { GivesPart (tail_of self.now.grammar.depth (spec.expression self.now.grammar.depth) role tokens.old) result tokens.new }
        ensures low { IfOk result FitsOperation }
    {
        match role {
            Operator::Call => Ok(Operation::Call(self.arguments(tokens)?)),
            Operator::Index => Ok(Operation::Index(self.bracketed(tokens)?)),
            Operator::Member { arrow } => member_tail(self.grammar.alloc, tokens, arrow),
            Operator::Step(op) => Ok(Operation::Step(op)),
            Operator::Choice => self.choice_tail(tokens),
            Operator::Assign(op) => Ok(Operation::Assign(
                op,
                self.grammar.expression(tokens, ASSIGNMENT)?,
            )),
            Operator::Join(op, level) => Ok(Operation::Join(
                op,
                level,
                self.grammar.expression(tokens, level)?,
            )),
            Operator::List => {
                let turns = tokens.left();
                Ok(Operation::List(self.exprs(tokens, turns)?))
            }
            Operator::Str | Operator::End => Err(ParseFault::NoDerivation),
        }
    }

    /// What stands behind a token of this role, if an expression of the level may go on with it.
    fn tail_behind(
        &self,
        tokens: &mut Tokens<'_>,
        level: u8,
        role: Operator,
    ) -> Result<Operation, ParseFault>
        requires nests { Nests self.now.grammar.depth (F.pre self.now.grammar.expr) (F.post self.now.grammar.expr) }
        requires role { spec.operator_binds role ≤ 17 }
        ensures reads { GivesPart (tail_behind self.now.grammar.depth (spec.expression self.now.grammar.depth) level role tokens.old) result tokens.new }
        ensures low { IfOk result FitsOperation }
    {
        if level <= operator_takes(role) {
            self.tail(tokens, role)
        } else {
            Err(ParseFault::NoDerivation)
        }
    }

    /// The expression with what stands behind a token of this role and place.
    fn go_on(
        &self,
        tokens: &mut Tokens<'_>,
        left: LeftOperand,
        start: Place,
        role: Operator,
        place: Place,
    ) -> Result<LeftOperand, ParseFault>
        requires nests { Nests self.now.grammar.depth (F.pre self.now.grammar.expr) (F.post self.now.grammar.expr) }
        requires low { left.height ≤ self.now.grammar.depth + 1 }
        requires role { spec.operator_binds role ≤ 17 }
        ensures { GivesLeftOperand (go_on self.now.grammar.depth (spec.expression self.now.grammar.depth) start left.level left.tree left.height role place tokens.old) result tokens.new }
    {
        let tail = self.tail_behind(tokens, left.level, role);
        let (left, tail) = both(left, tail)?;
        Ok(with_operation(self.grammar.alloc, left, tail, start, place)?)
    }

    /// The expression with the next token and what stands behind it.
    fn next(
        &self,
        tokens: &mut Tokens<'_>,
        left: LeftOperand,
        start: Place,
    ) -> Result<LeftOperand, ParseFault>
        requires nests { Nests self.now.grammar.depth (F.pre self.now.grammar.expr) (F.post self.now.grammar.expr) }
        requires low { left.height ≤ self.now.grammar.depth + 1 }
        ensures { GivesLeftOperand (spec.next_in self.now.grammar.depth (spec.expression self.now.grammar.depth) start (as_left_operand left tokens.old) tokens.old) result tokens.new }
    {
        let (role, place) = next_operator(tokens);
        self.go_on(tokens, left, start, role, place)
    }

    /// An expression of the level or a tighter one, which has begun so, by so many turns at most.
    fn climb(
        &self,
        tokens: &mut Tokens<'_>,
        level: u8,
        start: Place,
        first: LeftOperand,
        turns: usize,
    ) -> Result<WithHeight<Expr>, ParseFault>
        requires nests { Nests self.now.grammar.depth (F.pre self.now.grammar.expr) (F.post self.now.grammar.expr) }
        requires low { first.height ≤ self.now.grammar.depth + 1 }
        ensures reads { Gives (spec.climb self.now.grammar.depth (spec.expression self.now.grammar.depth) turns level start (as_left_operand first tokens.old)) result tokens.new }
        ensures low { IfOk result (λ x. x.height ≤ self.now.grammar.depth + 1) }
    {
        let mut left = first;
        for _turn in 0..turns {
            if level < binds(tokens) {
                return Ok(left.finish());
            }
            let next = self.next(tokens, left, start)?;
            let is_low = next.height <= self.grammar.depth + 1;
            left = kept(next, is_low)?;
        }
        kept(left.finish(), level < binds(tokens))
    }

    /// An expression of the level or a tighter one, which has begun so; none where it has begun with a looser one. Each
    /// turn makes the tree a node higher, so no more are needed than it may be high.
    #[tactic(auto, unfolding(parse_reading::specs::Reading::begun))]
    pub fn begun(
        &self,
        tokens: &mut Tokens<'_>,
        level: u8,
        start: Place,
        first: LeftOperand,
    ) -> Result<WithHeight<Expr>, ParseFault>
        requires nests { Nests self.now.grammar.depth (F.pre self.now.grammar.expr) (F.post self.now.grammar.expr) }
        requires low { first.height ≤ self.now.grammar.depth + 1 }
        ensures reads { Gives (spec.begun self.now.grammar.depth (spec.expression self.now.grammar.depth) level start (Some (as_left_operand first tokens.old))) result tokens.new }
        ensures low { IfOk result (λ x. x.height ≤ self.now.grammar.depth + 1) }
    {
        let is_tight = first.level <= level;
        let first = kept(first, is_tight)?;
        self.climb(tokens, level, start, first, self.grammar.depth + 1)
    }
}
