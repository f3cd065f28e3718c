//! Parameters (C11 6.7.6).

ghost use Rattle.std.specs.Prelude.{◌+◌, ◌≤◌, ◌<◌, suc, length, IfOk};
ghost use Rattle.parse_reading.specs.Reading.{expression};
ghost use Rattle.parse_reading.specs.ReadingDeclarators as spec;
ghost use Rattle.parse_tokens.specs.Gives.{Gives, Low};
ghost use Rattle.parse_declarators.specs.Named.{as_specs};
ghost use Rattle.parse_declarators.specs.Nests.{Nests};

use crate::named::Named;
use c_tokens::Punct;
use c_tree::{Param, Params};
use fc_base::Place;
use parse_expressions::abstract_declarator;
use parse_leaves::{Context, SpecList, plain_specs};
use parse_lists::{names, take_params_end};
use parse_meaning::{Keyword, Terminal};
use parse_tokens::{ParseFault, Tokens, WithHeight};
use sqlite_items::Items;
use std::alloc::Global;
use tree_drops::{ParamItems, both};

/// The productions of declarators, over a function that reads the declarators of parameters.
#[derive(Clone, Copy)]
pub struct Declarators<F> {
    pub alloc: Global,
    /// How high what stands in a parameter or a bound may be.
    pub depth: usize,
    pub declarator: F,
}

impl<
    'a,
    F: Fn(Global, &mut Tokens<'a>, usize) -> Result<WithHeight<Named<'a>>, ParseFault>,
> Declarators<F> {
    /// `int *x`, behind `int`
    #[tactic(auto, unfolding(parse_reading::specs::ReadingDeclarators::param_named))]
    fn param_named(
        &self,
        tokens: &mut Tokens<'a>,
        specs: WithHeight<SpecList>,
    ) -> Result<WithHeight<Param>, ParseFault>
        requires nests { Nests self.now.depth (F.pre self.now.declarator) (F.post self.now.declarator) }
        requires plain { specs.height ≤ 1 }
        ensures reads { Gives (spec.param_named (suc self.now.depth) (expression self.now.depth) (spec.declarator self.now.depth) (as_specs specs tokens.old)) result tokens.new }
        ensures low { Low (self.now.depth + 1) result tokens.old tokens.new }
        ensures on { IfOk result (λ _. length tokens.new ≤ length tokens.old) }
    {
        let named = (self.declarator)(self.alloc, tokens, self.depth);
        let (specs, named) = both(specs, named)?;
        Ok(WithHeight {
            tree: Param {
                specs: specs.tree.specs.finish(),
                declarator: named.tree.tree,
            },
            height: specs.height.max(named.height),
        })
    }

    /// `int *[2]`, behind `int`
    #[tactic(auto, unfolding(parse_reading::specs::ReadingDeclarators::param_abstract))]
    fn param_abstract(
        &self,
        tokens: &mut Tokens<'a>,
        place: Place,
        specs: WithHeight<SpecList>,
    ) -> Result<WithHeight<Param>, ParseFault>
        requires nests { Nests self.now.depth (F.pre self.now.declarator) (F.post self.now.declarator) }
        requires plain { specs.height ≤ 1 }
        ensures reads { Gives (spec.param_abstract (suc self.now.depth) (expression self.now.depth) (spec.declarator self.now.depth) place (as_specs specs tokens.old)) result tokens.new }
        ensures low { Low (self.now.depth + 1) result tokens.old tokens.new }
        ensures on { IfOk result (λ _. length tokens.new ≤ length tokens.old) }
    {
        let unnamed = abstract_declarator(self.alloc, tokens, self.depth, place);
        let (specs, unnamed) = both(specs, unnamed)?;
        Ok(WithHeight {
            tree: Param {
                specs: specs.tree.specs.finish(),
                declarator: unnamed.tree,
            },
            height: specs.height.max(unnamed.height),
        })
    }

    /// A parameter.
    #[tactic(auto, unfolding(parse_reading::specs::ReadingDeclarators::param))]
    fn param(&self, tokens: &mut Tokens<'a>) -> Result<WithHeight<Param>, ParseFault>
        requires { Nests self.now.depth (F.pre self.now.declarator) (F.post self.now.declarator) }
        ensures reads { Gives (spec.param (suc self.now.depth) (expression self.now.depth) (spec.declarator self.now.depth) tokens.old) result tokens.new }
        ensures low { Low (self.now.depth + 1) result tokens.old tokens.new }
        ensures on { IfOk result (λ _. length tokens.new < length tokens.old) }
    {
        let place = tokens.place();
        let specs = plain_specs(self.alloc, tokens, Context::Inner)?;
        if names(tokens) {
            self.param_named(tokens, specs)
        } else {
            self.param_abstract(tokens, place, specs)
        }
    }

    /// `int x, char *y)`
    fn params_some(&self, tokens: &mut Tokens<'a>) -> Result<WithHeight<Items<Param>>, ParseFault>
        requires { Nests self.now.depth (F.pre self.now.declarator) (F.post self.now.declarator) }
        ensures reads { Gives (spec.params_some (suc self.now.depth) (expression self.now.depth) (spec.declarator self.now.depth) (length tokens.old) tokens.old) result tokens.new }
        ensures low { Low (self.now.depth + 1) result tokens.old tokens.new }
        ensures on { IfOk result (λ _. length tokens.new < length tokens.old) }
    {
        let mut trees = ParamItems::new(self.alloc);
        let mut height = 0;
        let turns = tokens.left();
        for _turn in 0..turns {
            let param = self.param(tokens)?;
            trees.push(param.tree)?;
            height = height.max(param.height);
            if take_params_end(tokens)? {
                return Ok(WithHeight {
                    tree: trees.finish(),
                    height,
                });
            }
        }
        Err(ParseFault::NoDerivation)
    }

    #[tactic(auto, unfolding(parse_reading::specs::ReadingDeclarators::params_list))]
    fn params_list(&self, tokens: &mut Tokens<'a>) -> Result<WithHeight<Params>, ParseFault>
        requires { Nests self.now.depth (F.pre self.now.declarator) (F.post self.now.declarator) }
        ensures reads { Gives (spec.params_list (suc self.now.depth) (expression self.now.depth) (spec.declarator self.now.depth) tokens.old) result tokens.new }
        ensures low { Low (self.now.depth + 1) result tokens.old tokens.new }
        ensures on { IfOk result (λ _. length tokens.new < length tokens.old) }
    {
        let params = self.params_some(tokens)?;
        Ok(WithHeight {
            tree: Params::List(params.tree),
            height: params.height,
        })
    }

    /// What stands behind the `(` of a function declarator, up to and with its `)`.
    pub fn params_in(&self, tokens: &mut Tokens<'a>) -> Result<WithHeight<Params>, ParseFault>
        requires { Nests self.now.depth (F.pre self.now.declarator) (F.post self.now.declarator) }
        ensures reads { Gives (spec.params_in (suc self.now.depth) (expression self.now.depth) (spec.declarator self.now.depth) tokens.old) result tokens.new }
        ensures low { Low (self.now.depth + 1) result tokens.old tokens.new }
        ensures on { IfOk result (λ _. length tokens.new < length tokens.old) }
    {
        let mut ahead = tokens.fork();
        match ahead.next() {
            Some((Terminal::Punct(Punct::RightParen), _)) => {
                *tokens = ahead;
                Ok(WithHeight {
                    tree: Params::Empty,
                    height: 0,
                })
            }
            Some((Terminal::Word(Keyword::Void), _)) => match ahead.next() {
                Some((Terminal::Punct(Punct::RightParen), _)) => {
                    *tokens = ahead;
                    Ok(WithHeight {
                        tree: Params::Void,
                        height: 0,
                    })
                }
                _ => self.params_list(tokens),
            },
            _ => self.params_list(tokens),
        }
    }
}
