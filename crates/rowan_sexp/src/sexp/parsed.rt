ghost use Rattle.std.specs.Prelude.{◌≡◌, [], Some, IfOk, IfErr};
ghost use Rattle.rowan_table.specs.Cursor.{kind};
ghost use Rattle.rowan_green.specs.Term.{node_kind};
ghost use Rattle.rowan_sexp.specs.Parsing.{root_kind};

use crate::sexp::ast::Root;
use crate::sexp::lang::Lang;
use rowan::ast::AstNode;
use rowan::{Fault, GreenNode, SyntaxNode};
use std::alloc::Global;
use std::marker::Model;

/// The tree of a text, as `parse` makes it. Of its calls only `syntax` and `root` can be refused,
/// for want of memory.
#[derive(Drop)]
pub struct Parse {
    green: GreenNode,
}

impl Model for Parse {
    ghost use Rattle.std.specs.Prelude.{◌≡◌};
    ghost use Rattle.rowan_green.specs.Term.{NodeTerm, node_kind};
    ghost use Rattle.rowan_green.specs.Coding.{coded_node};
    ghost use Rattle.rowan_sexp.specs.Parsing.{root_kind};

    ghost Value = { NodeTerm };

    ghost coded = { coded_node };

    ghost view = { λ p. p.green };

    ghost invariant = { λ p. node_kind p.green ≡ root_kind };
}

impl Parse {
    pub(super) fn new(green: GreenNode) -> Parse
        requires { node_kind green ≡ root_kind }
        ensures { result ≡ green }
    {
        Parse { green }
    }

    /// The root of the tree.
    pub fn green(&self) -> &GreenNode
        ensures { result.now ≡ self.now }
    {
        &self.green
    }

    /// The cursor at the root. Refused only for want of memory.
    pub fn syntax(&self, alloc: Global) -> Result<SyntaxNode<Lang>, Fault>
        ensures ok { IfOk result (λ n. n ≡ record { root = self.now; path = [] }) }
        ensures kind { IfOk result (λ n. kind n ≡ Some root_kind) }
        ensures err { IfErr result (λ e. e ≡ Fault.Memory) }
    {
        SyntaxNode::new_root(alloc, self.green.clone()?)
    }

    /// The same cursor as a wrapper. Refused only for want of memory.
    pub fn root(&self, alloc: Global) -> Result<Root, Fault>
        ensures ok { IfOk result (λ root. root ≡ record { root = self.now; path = [] }) }
        ensures err { IfErr result (λ e. e ≡ Fault.Memory) }
    {
        let root = self.syntax(alloc)?;
        Ok(Root::cast(root).unwrap())
    }
}
