//! Specifiers of declarations and of type names. Each has a blank behind it.

use crate::labels::{label_of_aggregate, label_of_basic};
use crate::output::Output;
use c_tree::{Attribute, Identifier, MemberDecl, Spec};
use fc_base::Text;
use sqlite_items::Items;

fn push_name(out: &mut Output, name: &Text) {
    out.push_text(name);
    out.push_str(" ");
}

/// `s`, or `s{2}` with two declarations of members.
fn push_tagged(out: &mut Output, tag: &Identifier, members: &Option<Items<MemberDecl>>) {
    out.push_text(&tag.name);
    match members {
        Some(members) => out.push_count("{", members.len(), "} "),
        None => out.push_str(" "),
    }
}

fn push_spec(out: &mut Output, spec: &Spec) {
    match spec {
        Spec::Typedef { .. } => out.push_str("typedef "),
        Spec::Extern { .. } => out.push_str("extern "),
        Spec::Static { .. } => out.push_str("static "),
        Spec::Inline { .. } => out.push_str("inline "),
        Spec::Const { .. } => out.push_str("const "),
        Spec::Attributes { list, .. } => out.push_count("attributes", list.len(), " "),
        Spec::Basic { word, .. } => out.push_str(label_of_basic(*word)),
        Spec::TypedefName { name, .. } => push_name(out, name),
        Spec::Tagged {
            aggregate,
            tag,
            members,
            ..
        } => {
            out.push_str(label_of_aggregate(*aggregate));
            out.push_str(" ");
            push_tagged(out, tag, members);
        }
        Spec::Untagged {
            aggregate,
            members,
            ..
        } => {
            out.push_str(label_of_aggregate(*aggregate));
            out.push_count("{", members.len(), "} ");
        }
        Spec::Enum { enumerators, .. } => out.push_count("enum{", enumerators.len(), "} "),
        Spec::EnumTag { tag, .. } => {
            out.push_str("enum ");
            push_name(out, &tag.name);
        }
    }
}

pub fn push_specs(out: &mut Output, specs: &Items<Spec>) {
    for spec in specs.as_slice() {
        push_spec(out, spec);
    }
}

/// The name, with how many tokens its arguments have.
fn push_attribute(out: &mut Output, attribute: &Attribute) {
    out.push_text(&attribute.name);
    match &attribute.args {
        Some(args) => out.push_count("", args.len(), ";"),
        None => out.push_str(";"),
    }
}

fn push_attributes(out: &mut Output, list: &Items<Attribute>) {
    for attribute in list.as_slice() {
        push_attribute(out, attribute);
    }
    out.push_str(" ");
}

/// In a type name attributes have names, a tag stands alone, and a word of a basic type is not named.
fn push_type_spec(out: &mut Output, spec: &Spec) {
    match spec {
        Spec::Attributes { list, .. } => push_attributes(out, list),
        Spec::Basic { .. } => out.push_str("basic "),
        Spec::Tagged { tag, .. } => push_name(out, &tag.name),
        _ => push_spec(out, spec),
    }
}

pub fn push_type_specs(out: &mut Output, specs: &Items<Spec>) {
    for spec in specs.as_slice() {
        push_type_spec(out, spec);
    }
}
