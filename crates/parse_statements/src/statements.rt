//! Statements that hold statements (C11 6.8).

ghost use Rattle.std.specs.Prelude.{◌≡◌, ◌<◌, ◌≤◌, ◌+◌, ◌*◌, ◌^◌, ◌∷◌, List, length, IfOk};
ghost use Rattle.c_tokens.specs.declared.tokens.Token.{Token};
ghost use Rattle.parse_meaning.specs.declared.terminals.Terminal.TheVariants as k;
ghost use Rattle.parse_meaning.specs.Terminals.{Lexeme, at};
ghost use Rattle.parse_reading.specs.Reading.{expression, prepended};
ghost use Rattle.parse_reading.specs.ReadingStatements as spec;
ghost use Rattle.parse_tokens.specs.Rooms.{depth_room};
ghost use Rattle.parse_tokens.specs.Gives.{Gives};
ghost use Rattle.parse_statements.specs.Lists.{item_of, stmts_of, begins_cases, braced_cases_of};
ghost use Rattle.parse_initialisers.specs.Nests.{Nests};
ghost use Rattle.parse_initialisers.specs.Readers.{Within, locals};

use crate::optional::{End, optional};
use crate::simple_statements::{
    begins_label, condition, declared_item, do_test, evaluation, for_head, jump, label, returned,
};
use c_tokens::Punct;
use c_tree::{Expr, Stmt};
use fc_base::Place;
use parse_lists::take_body_end;
use parse_meaning::{Keyword, Terminal};
use parse_tokens::{ParseFault, Tokens, WithHeight, before_semicolon};
use sqlite_items::{Boxed, Items};
use std::alloc::Global;
use tree_drops::{IntoBox, StmtItems, both};

/// What may stand between braces beside statements: declarations in a block, labels in a switch.
#[derive(Clone, Copy)]
pub enum Beside {
    Declarations,
    Labels,
}

/// Statements whose parts are read by `deep`, to the depth.
#[derive(Clone, Copy)]
pub struct Statements<F> {
    pub alloc: Global,
    pub depth: usize,
    pub deep: F,
}

/// Whether the next token begins what may stand first in the braces of a switch, or closes them.
fn begins_cases(tokens: &Tokens<'_>) -> bool
    ensures { result ≡ begins_cases tokens.now }
{
    matches!(
        tokens.peek(),
        Some(Terminal::Punct(Punct::RightBrace) | Terminal::Word(Keyword::Case | Keyword::Default))
    )
}

impl<F: Fn(Global, &mut Tokens<'_>, usize) -> Result<WithHeight<Stmt>, ParseFault>> Statements<F> {
    fn sub(&self, tokens: &mut Tokens<'_>) -> Result<WithHeight<Stmt>, ParseFault>
        requires { Nests spec.statement self.now.depth (F.pre self.now.deep) (F.post self.now.deep) }
        ensures reads { Gives (spec.statement self.now.depth tokens.old) result tokens.new }
        ensures low { Within self.now.depth result }
        ensures few { self.now.depth + 1 < depth_room }
    {
        (self.deep)(self.alloc, tokens, self.depth)
    }

    /// A statement that is a part of another one.
    fn part(&self, tokens: &mut Tokens<'_>) -> Result<WithHeight<Boxed<Stmt>>, ParseFault>
        requires { Nests spec.statement self.now.depth (F.pre self.now.deep) (F.post self.now.deep) }
        ensures reads { Gives (spec.statement self.now.depth tokens.old) result tokens.new }
        ensures low { Within self.now.depth result }
    {
        let WithHeight { tree, height } = self.sub(tokens)?;
        Ok(WithHeight {
            tree: Stmt::boxed(self.alloc, tree)?,
            height,
        })
    }

    /// One of what stands between braces.
    fn item(&self, tokens: &mut Tokens<'_>, beside: Beside) -> Result<WithHeight<Stmt>, ParseFault>
        requires { Nests spec.statement self.now.depth (F.pre self.now.deep) (F.post self.now.deep) }
        ensures reads { Gives (item_of self.now.depth beside tokens.old) result tokens.new }
        ensures low { IfOk result (λ x. x.height ≤ 2 * self.now.depth + 1 + 2 ^ 63) }
    {
        match beside {
            Beside::Declarations if tokens.begins_spec() => {
                declared_item(self.alloc, tokens, self.depth)
            }
            Beside::Labels if begins_label(tokens, self.depth) => {
                label(self.alloc, tokens, self.depth)
            }
            _ => self.sub(tokens),
        }
    }

    /// What stands between braces behind the first of it, up to and with the brace that closes, in at most so many
    /// turns.
    fn braced(
        &self,
        tokens: &mut Tokens<'_>,
        beside: Beside,
        first: WithHeight<StmtItems>,
        turns: usize,
    ) -> Result<WithHeight<Items<Stmt>>, ParseFault>
        requires nests { Nests spec.statement self.now.depth (F.pre self.now.deep) (F.post self.now.deep) }
        requires low { first.height ≤ 2 * self.now.depth + 1 + 2 ^ 63 }
        ensures reads { Gives (prepended first.tree first.height (stmts_of self.now.depth beside turns tokens.old)) result tokens.new }
        ensures low { IfOk result (λ x. x.height ≤ 2 * self.now.depth + 1 + 2 ^ 63) }
    {
        let WithHeight {
            tree: mut trees,
            mut height,
        } = first;
        for _turn in 0..turns {
            if take_body_end(tokens) {
                return Ok(WithHeight {
                    tree: trees.finish(),
                    height,
                });
            }
            let next = self.item(tokens, beside)?;
            trees.push(next.tree)?;
            height = height.max(next.height);
        }
        if take_body_end(tokens) {
            Ok(WithHeight {
                tree: trees.finish(),
                height,
            })
        } else {
            Err(ParseFault::NoDerivation)
        }
    }

    /// The items of a block, behind its brace (C11 6.8.2).
    pub fn items(&self, tokens: &mut Tokens<'_>) -> Result<WithHeight<Items<Stmt>>, ParseFault>
        requires { Nests spec.statement self.now.depth (F.pre self.now.deep) (F.post self.now.deep) }
        ensures reads { Gives (spec.items (expression self.now.depth) (locals self.now.depth) (spec.statement self.now.depth) (length tokens.old) tokens.old) result tokens.new }
        ensures low { IfOk result (λ x. x.height ≤ 2 * self.now.depth + 1 + 2 ^ 63) }
    {
        let turns = tokens.left();
        let nothing = WithHeight {
            tree: StmtItems::new(self.alloc),
            height: 0,
        };
        self.braced(tokens, Beside::Declarations, nothing, turns)
    }

    #[tactic(auto, unfolding(parse_reading::specs::ReadingStatements::compound))]
    fn compound(
        &self,
        tokens: &mut Tokens<'_>,
        place: Place,
    ) -> Result<WithHeight<Stmt>, ParseFault>
        requires { Nests spec.statement self.now.depth (F.pre self.now.deep) (F.post self.now.deep) }
        ensures reads { Gives (spec.compound (expression self.now.depth) (locals self.now.depth) (spec.statement self.now.depth) place tokens.old) result tokens.new }
        ensures low { Within (self.now.depth + 1) result }
    {
        let found = self.items(tokens)?;
        Ok(WithHeight {
            tree: Stmt::Block {
                items: found.tree,
                place,
            },
            height: found.height + 1,
        })
    }

    /// The labels and statements of a switch, behind its brace: the first of them is a label.
    fn cases(&self, tokens: &mut Tokens<'_>) -> Result<WithHeight<Items<Stmt>>, ParseFault>
        requires { Nests spec.statement self.now.depth (F.pre self.now.deep) (F.post self.now.deep) }
        ensures reads { Gives (spec.cases (expression self.now.depth) (locals self.now.depth) (spec.statement self.now.depth) tokens.old) result tokens.new }
        ensures low { IfOk result (λ x. x.height ≤ 2 * self.now.depth + 1 + 2 ^ 63) }
    {
        if !begins_cases(tokens) {
            return Err(ParseFault::NoDerivation);
        }
        let turns = tokens.left() + 1;
        let nothing = WithHeight {
            tree: StmtItems::new(self.alloc),
            height: 0,
        };
        self.braced(tokens, Beside::Labels, nothing, turns)
    }

    /// The labels and statements of a switch, with the brace that begins them.
    fn braced_cases(&self, tokens: &mut Tokens<'_>) -> Result<WithHeight<Items<Stmt>>, ParseFault>
        requires { Nests spec.statement self.now.depth (F.pre self.now.deep) (F.post self.now.deep) }
        ensures reads { Gives (braced_cases_of self.now.depth tokens.old) result tokens.new }
        ensures low { IfOk result (λ x. x.height ≤ 2 * self.now.depth + 1 + 2 ^ 63) }
    {
        tokens.expect_left_brace()?;
        self.cases(tokens)
    }

    /// `else` and its statement, or nothing, behind what an `if` begins with (C11 6.8.4.1).
    fn otherwise(
        &self,
        tokens: &mut Tokens<'_>,
        test: WithHeight<Expr>,
        yes: WithHeight<Boxed<Stmt>>,
        place: Place,
    ) -> Result<WithHeight<Stmt>, ParseFault>
        requires nests { Nests spec.statement self.now.depth (F.pre self.now.deep) (F.post self.now.deep) }
        requires test { test.height ≤ self.now.depth }
        requires yes { yes.height ≤ 2 * self.now.depth + 2 ^ 63 }
        ensures reads { Gives (spec.otherwise (expression self.now.depth) (locals self.now.depth) (spec.statement self.now.depth) place test.tree test.height yes.tree yes.height tokens.old) result tokens.new }
        ensures low { Within (self.now.depth + 1) result }
    {
        match tokens.peek() {
            Some(Terminal::Word(Keyword::Else)) => {
                tokens.next();
                let no = self.part(tokens);
                let ((test, yes), no) = both((test, yes), no)?;
                Ok(WithHeight {
                    height: test.height.max(yes.height.max(no.height)) + 1,
                    tree: Stmt::If {
                        test: test.tree,
                        yes: yes.tree,
                        no: Some(no.tree),
                        place,
                    },
                })
            }
            _ => Ok(WithHeight {
                height: test.height.max(yes.height) + 1,
                tree: Stmt::If {
                    test: test.tree,
                    yes: yes.tree,
                    no: None,
                    place,
                },
            }),
        }
    }

    #[tactic(auto, unfolding(parse_reading::specs::ReadingStatements::if_read))]
    fn if_statement(
        &self,
        tokens: &mut Tokens<'_>,
        place: Place,
    ) -> Result<WithHeight<Stmt>, ParseFault>
        requires { Nests spec.statement self.now.depth (F.pre self.now.deep) (F.post self.now.deep) }
        ensures reads { Gives (spec.if_read (expression self.now.depth) (locals self.now.depth) (spec.statement self.now.depth) place tokens.old) result tokens.new }
        ensures low { Within (self.now.depth + 1) result }
    {
        let test = condition(self.alloc, tokens, self.depth)?;
        let yes = self.part(tokens);
        let (test, yes) = both(test, yes)?;
        self.otherwise(tokens, test, yes, place)
    }

    /// C11 6.8.4.2
    #[tactic(auto, unfolding(parse_reading::specs::ReadingStatements::switch_read))]
    fn switch_statement(
        &self,
        tokens: &mut Tokens<'_>,
        place: Place,
    ) -> Result<WithHeight<Stmt>, ParseFault>
        requires { Nests spec.statement self.now.depth (F.pre self.now.deep) (F.post self.now.deep) }
        ensures reads { Gives (spec.switch_read (expression self.now.depth) (locals self.now.depth) (spec.statement self.now.depth) place tokens.old) result tokens.new }
        ensures low { Within (self.now.depth + 1) result }
    {
        let subject = condition(self.alloc, tokens, self.depth)?;
        let found = self.braced_cases(tokens);
        let (subject, found) = both(subject, found)?;
        Ok(WithHeight {
            height: subject.height.max(found.height) + 1,
            tree: Stmt::Switch {
                subject: subject.tree,
                items: found.tree,
                place,
            },
        })
    }

    /// C11 6.8.5
    #[tactic(auto, unfolding(parse_reading::specs::ReadingStatements::while_read))]
    fn while_statement(
        &self,
        tokens: &mut Tokens<'_>,
        place: Place,
    ) -> Result<WithHeight<Stmt>, ParseFault>
        requires { Nests spec.statement self.now.depth (F.pre self.now.deep) (F.post self.now.deep) }
        ensures reads { Gives (spec.while_read (expression self.now.depth) (locals self.now.depth) (spec.statement self.now.depth) place tokens.old) result tokens.new }
        ensures low { Within (self.now.depth + 1) result }
    {
        let test = condition(self.alloc, tokens, self.depth)?;
        let body = self.part(tokens);
        let (test, body) = both(test, body)?;
        Ok(WithHeight {
            height: test.height.max(body.height) + 1,
            tree: Stmt::While {
                test: test.tree,
                body: body.tree,
                place,
            },
        })
    }

    #[tactic(auto, unfolding(parse_reading::specs::ReadingStatements::do_read))]
    fn do_statement(
        &self,
        tokens: &mut Tokens<'_>,
        place: Place,
    ) -> Result<WithHeight<Stmt>, ParseFault>
        requires { Nests spec.statement self.now.depth (F.pre self.now.deep) (F.post self.now.deep) }
        ensures reads { Gives (spec.do_read (expression self.now.depth) (locals self.now.depth) (spec.statement self.now.depth) place tokens.old) result tokens.new }
        ensures low { Within (self.now.depth + 1) result }
    {
        let body = self.part(tokens)?;
        let test = do_test(self.alloc, tokens, self.depth);
        let (body, test) = both(body, test)?;
        let found = WithHeight {
            height: body.height.max(test.height) + 1,
            tree: Stmt::Do {
                body: body.tree,
                test: test.tree,
                place,
            },
        };
        before_semicolon(tokens, found)
    }

    #[tactic(auto, unfolding(parse_reading::specs::ReadingStatements::for_read))]
    fn for_statement(
        &self,
        tokens: &mut Tokens<'_>,
        place: Place,
    ) -> Result<WithHeight<Stmt>, ParseFault>
        requires { Nests spec.statement self.now.depth (F.pre self.now.deep) (F.post self.now.deep) }
        ensures reads { Gives (spec.for_read (expression self.now.depth) (locals self.now.depth) (spec.statement self.now.depth) place tokens.old) result tokens.new }
        ensures low { Within (self.now.depth + 1) result }
    {
        tokens.expect_left_paren()?;
        let head = for_head(self.alloc, tokens, self.depth)?;
        let test = optional(self.alloc, tokens, self.depth, End::Semicolon);
        let (head, test) = both(head, test)?;
        let step = optional(self.alloc, tokens, self.depth, End::RightParen);
        let ((head, test), step) = both((head, test), step)?;
        let body = self.part(tokens);
        let ((head, test, step), body) = both((head, test, step), body)?;
        let height = test.height.max(step.height.max(body.height));
        Ok(WithHeight {
            height: head.height.max(height) + 1,
            tree: Stmt::For {
                head: head.tree,
                test: test.tree,
                step: step.tree,
                body: body.tree,
                place,
            },
        })
    }

    /// A statement that begins with the word.
    fn worded(&self, tokens: &mut Tokens<'_>, word: Keyword) -> Result<WithHeight<Stmt>, ParseFault>
        requires nests { Nests spec.statement self.now.depth (F.pre self.now.deep) (F.post self.now.deep) }
        requires begins { (o : Token) × (t : List Lexeme) × (tokens.old ≡ at (k.Word word) o ∷ t) }
        ensures reads { Gives (spec.statement_by (expression self.now.depth) (locals self.now.depth) (spec.statement self.now.depth) tokens.old) result tokens.new }
        ensures low { Within (self.now.depth + 1) result }
    {
        let place = tokens.place();
        match word {
            Keyword::If => {
                tokens.next();
                self.if_statement(tokens, place)
            }
            Keyword::Switch => {
                tokens.next();
                self.switch_statement(tokens, place)
            }
            Keyword::While => {
                tokens.next();
                self.while_statement(tokens, place)
            }
            Keyword::Do => {
                tokens.next();
                self.do_statement(tokens, place)
            }
            Keyword::For => {
                tokens.next();
                self.for_statement(tokens, place)
            }
            Keyword::Break => {
                tokens.next();
                jump(tokens, self.depth, Stmt::Break { place })
            }
            Keyword::Continue => {
                tokens.next();
                jump(tokens, self.depth, Stmt::Continue { place })
            }
            Keyword::Return => {
                tokens.next();
                returned(self.alloc, tokens, self.depth, place)
            }
            _ => evaluation(self.alloc, tokens, self.depth),
        }
    }

    fn any(&self, tokens: &mut Tokens<'_>) -> Result<WithHeight<Stmt>, ParseFault>
        requires { Nests spec.statement self.now.depth (F.pre self.now.deep) (F.post self.now.deep) }
        ensures reads { Gives (spec.statement_by (expression self.now.depth) (locals self.now.depth) (spec.statement self.now.depth) tokens.old) result tokens.new }
        ensures low { Within (self.now.depth + 1) result }
    {
        let place = tokens.place();
        match tokens.peek() {
            Some(Terminal::Punct(Punct::LeftBrace)) => {
                tokens.next();
                self.compound(tokens, place)
            }
            Some(Terminal::Word(word)) => self.worded(tokens, word),
            _ => evaluation(self.alloc, tokens, self.depth),
        }
    }
}

/// A statement, to the depth.
pub fn statement(
    alloc: Global,
    tokens: &mut Tokens<'_>,
    depth: usize,
) -> Result<WithHeight<Stmt>, ParseFault>
    requires { depth < depth_room }
    ensures reads { Gives (spec.statement depth tokens.old) result tokens.new }
    ensures low { Within depth result }
{
    if depth == 0 {
        return Err(ParseFault::NoDerivation);
    }
    Statements {
        alloc,
        depth: depth - 1,
        deep: statement,
    }
    .any(tokens)
}

/// The items of a block behind its brace, whose statements are read to the depth.
pub fn block_items(
    alloc: Global,
    tokens: &mut Tokens<'_>,
    depth: usize,
) -> Result<WithHeight<Items<Stmt>>, ParseFault>
    requires { depth + 1 < depth_room }
    ensures reads { Gives (spec.items (expression depth) (locals depth) (spec.statement depth) (length tokens.old) tokens.old) result tokens.new }
    ensures low { IfOk result (λ x. x.height ≤ 2 * depth + 1 + 2 ^ 63) }
{
    Statements {
        alloc,
        depth,
        deep: statement,
    }
    .items(tokens)
}
