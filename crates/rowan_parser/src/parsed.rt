//! What parsing answers.
ghost use Rattle.std.specs.Prelude.{◌≡◌, ◌<◌, [], Ok, Err, length, IfOk, IfErr};
ghost use Rattle.std.specs.Option.{option_map};
ghost use Rattle.rowan.specs.Ast.{casts_at, if_casts};

use rowan::ast::AstNode;
use rowan::{Fault, GreenNode, Language, SyntaxNode};
use rowan_lines::SyntaxError;
use std::alloc::Global;

/// The tree of a text, and what its grammar complained of.
#[derive(Drop)]
pub struct Parse {
    pub green: GreenNode,
    /// In the order in which the grammar complained.
    pub errors: Vec<SyntaxError>,
}

impl Parse {
    /// The cursor at the root.
    ///
    /// Errors: `Memory` if an allocation failed.
    pub fn syntax<L: Language>(&self, alloc: Global) -> Result<SyntaxNode<L>, Fault>
        ensures ok { IfOk result (λ n. n ≡ record { root = self.now.green; path = [] }) }
        ensures err { IfErr result (λ e. e ≡ Fault.Memory) }
    {
        SyntaxNode::new_root(alloc, self.green.clone()?)
    }

    /// The wrapper of the root, or `None` where the root's kind does not cast to it.
    ///
    /// Errors: `Memory` if an allocation failed.
    pub fn tree<N: AstNode>(&self, alloc: Global) -> Result<Option<N>, Fault>
        ensures ok { let casting = casts_at N.Language.meaning N.casts in
            IfOk result (λ tree. option_map N.node_of tree
            ≡ if_casts casting (record { root = self.now.green; path = [] })) }
        ensures err { IfErr result (λ e. e ≡ Fault.Memory) }
    {
        let root: SyntaxNode<N::Language> = self.syntax(alloc)?;
        Ok(N::cast(root))
    }

    /// What the grammar complained of, in the order in which it did.
    pub fn errors(&self) -> &[SyntaxError]
        ensures { result.now ≡ self.now.errors.items }
    {
        self.errors.as_slice()
    }

    /// The tree where the grammar complained of nothing, and else the errors.
    pub fn ok(self) -> Result<GreenNode, Vec<SyntaxError>>
        ensures tree { self.errors.items ≡ [] → result ≡ Ok self.green }
        ensures errors { 0 < length self.errors.items → result ≡ Err self.errors }
    {
        let Parse { green, errors } = self;
        if errors.is_empty() {
            Ok(green)
        } else {
            Err(errors)
        }
    }
}
