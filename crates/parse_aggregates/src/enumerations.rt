//! The bodies of enumerations (C11 6.7.2.2).

ghost use Rattle.std.specs.Prelude.{◌≤◌, ◌<◌, length, IfOk};
ghost use Rattle.parse_reading.specs.Reading.{expression};
ghost use Rattle.parse_reading.specs.ReadingDeclarators as spec;
ghost use Rattle.parse_tokens.specs.Rooms.{depth_room};
ghost use Rattle.parse_tokens.specs.Gives.{Gives};

use c_tokens::Punct;
use c_tree::Enumerator;
use parse_expressions::expression;
use parse_lists::{copy_identifier, take_enumerators_end};
use parse_meaning::Terminal;
use parse_operators::CONDITIONAL;
use parse_tokens::{ParseFault, Tokens, WithHeight};
use sqlite_items::Items;
use std::alloc::Global;
use tree_drops::{EnumeratorItems, both};

/// `A` or `A = 1`
#[tactic(auto, unfolding(parse_reading::specs::ReadingDeclarators::enumerator_valued))]
fn enumerator(
    alloc: Global,
    tokens: &mut Tokens<'_>,
    depth: usize,
) -> Result<WithHeight<Enumerator>, ParseFault>
    requires { depth < depth_room }
    ensures reads { Gives (spec.enumerator (expression depth) tokens.old) result tokens.new }
    ensures low { IfOk result (λ x. x.height ≤ depth) }
    ensures on { IfOk result (λ _. length tokens.new < length tokens.old) }
{
    let Some((Terminal::Name, token)) = tokens.next() else {
        return Err(ParseFault::NoDerivation);
    };
    let name = copy_identifier(alloc, token)?;
    match tokens.peek() {
        Some(Terminal::Punct(Punct::Assign)) => {
            tokens.next();
            let value = expression(alloc, tokens, depth, CONDITIONAL);
            let (name, value) = both(name, value)?;
            Ok(WithHeight {
                tree: Enumerator {
                    name,
                    value: Some(value.tree),
                },
                height: value.height,
            })
        }
        _ => Ok(WithHeight {
            tree: Enumerator { name, value: None },
            height: 0,
        }),
    }
}

/// `A, B = 1, }`
pub fn enumerators(
    alloc: Global,
    tokens: &mut Tokens<'_>,
    depth: usize,
) -> Result<WithHeight<Items<Enumerator>>, ParseFault>
    requires { depth < depth_room }
    ensures reads { Gives (spec.enumerators (expression depth) (length tokens.old) tokens.old) result tokens.new }
    ensures low { IfOk result (λ x. x.height ≤ depth) }
    ensures on { IfOk result (λ _. length tokens.new < length tokens.old) }
{
    let mut trees = EnumeratorItems::new(alloc);
    let mut height = 0;
    let turns = tokens.left();
    for _turn in 0..turns {
        let next = enumerator(alloc, tokens, depth)?;
        trees.push(next.tree)?;
        height = height.max(next.height);
        if take_enumerators_end(tokens)? {
            return Ok(WithHeight {
                tree: trees.finish(),
                height,
            });
        }
    }
    Err(ParseFault::NoDerivation)
}
