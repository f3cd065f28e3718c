//! External declarations, and the whole file (C11 6.9).

use crate::nodes::{Declarator, Spec};
use crate::statements::{InitDeclarator, Stmt};
use c_tokens::HeaderId;
use fc_base::Place;
use sqlite_items::Items;

/// An external declaration, or the inclusion of a header, whose declarations are built in.
#[derive(Drop)]
pub enum External {
    Header {
        id: HeaderId,
        place: Place,
    },
    /// A declaration with any number of declarators.
    Declaration {
        specs: Items<Spec>,
        declarators: Items<InitDeclarator>,
        place: Place,
    },
    /// A function with its body, a block.
    Function {
        specs: Items<Spec>,
        declarator: Declarator,
        body: Stmt,
        place: Place,
    },
}

/// A source as it is written: its external declarations in order.
#[derive(Drop)]
pub struct FileTree {
    pub externals: Items<External>,
}
