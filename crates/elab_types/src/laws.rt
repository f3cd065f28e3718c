//! Laws of the definitions of typing: each is the clause of a function that does nothing.

ghost use Rattle.c_tree.specs.declared.nodes.Declarator.{Declarator};
ghost use Rattle.c_tree.specs.declared.nodes.Expr.{Expr};
ghost use Rattle.c_tree.specs.declared.nodes.Spec.{Spec};
ghost use Rattle.c_tree.specs.declared.nodes.TypeName.{TypeName};
ghost use Rattle.elab_meaning.specs.Trees.{read_declarator, read_expr, read_spec, read_type_name};
ghost use Rattle.elab_types.specs.Keeps.{Keeps};

/// Whatever part of a file is typed, complete structures and unions keep their members behind it, and those whose bodies are
/// being read stay as they are: none gets a second body.
#[tactic(auto, using(crate::proofs::KeepingTrees::every_declarator, crate::proofs::KeepingTrees::every_expr, crate::proofs::KeepingTrees::every_spec, crate::proofs::KeepingTrees::every_type_name))]
pub fn keeping_law()
    ensures expressions { (e : Expr) → Keeps (read_expr e).typed }
    ensures specifiers { (s : Spec) → Keeps (read_spec s) }
    ensures declarators { (d : Declarator) → Keeps (read_declarator d).parts }
    ensures type_names { (t : TypeName) → Keeps (read_type_name t) }
{}
