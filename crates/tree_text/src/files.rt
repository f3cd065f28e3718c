//! External declarations and files.

use crate::declarations::{LEVELS, push_declarator};
use crate::output::Output;
use crate::specifiers::push_specs;
use crate::statements::{push_declaration, push_stmt};
use c_tree::{External, FileTree};

fn push_external(out: &mut Output, external: &External) {
    match external {
        External::Header { .. } => out.push_str("header"),
        External::Declaration {
            specs,
            declarators,
            ..
        } => push_declaration(out, specs, declarators),
        External::Function {
            specs,
            declarator,
            body,
            ..
        } => {
            push_specs(out, specs);
            push_declarator(out, declarator, LEVELS);
            out.push_str(" ");
            push_stmt(out, body, LEVELS);
        }
    }
}

/// The external declarations, with a semicolon behind each. Of an expression only a leaf is shown.
pub fn push_file(out: &mut Output, file: &FileTree) {
    for external in file.externals.as_slice() {
        push_external(out, external);
        out.push_str("; ");
    }
}
