//! Replacements: from the element that is replaced up to the root, one new node for each ancestor.
ghost use Rattle.std.specs.Prelude.{◌≡◌, IfOk, IfErr};
ghost use Rattle.rowan_green.specs.declared.utility_types.NodeOrToken.TheVariants.{Node, Token};
ghost use Rattle.rowan_green.specs.Fits.{FitsNode};
ghost use Rattle.rowan_table.specs.Replacement.{with_replacement, WhyNoRoot};

use super::Table;
use rowan_green::fault::Fault;
use rowan_green::green::{GreenNode, GreenToken};
use rowan_green::utility_types::NodeOrToken;

impl Table {
    ghost use Rattle.rowan_table.specs.TableView.{cursor_of, IsNodeIn, IsTokenIn};

    /// The root with another node in place of the one at a number.
    pub fn replace_node(&self, number: usize, replacement: GreenNode) -> Result<GreenNode, Fault>
        requires number { IsNodeIn self.now number }
        requires fits { FitsNode replacement }
        ensures root { IfOk result (λ n.
            Node n ≡ with_replacement (cursor_of self.now number) (Node replacement)) }
        ensures fits { IfOk result FitsNode }
        ensures err { IfErr result (WhyNoRoot (cursor_of self.now number) (Node replacement)) }
    {
        let mut current = number;
        let mut green = replacement;
        while let Some(parent) = self.parent(current) {
            let child = NodeOrToken::Node(green);
            green = self.node(parent).replace_child(self.index(current), child)?;
            current = parent;
        }
        Ok(green)
    }

    /// The root with another token in place of the one at a number.
    pub fn replace_token(&self, number: usize, replacement: GreenToken) -> Result<GreenNode, Fault>
        requires { IsTokenIn self.now number }
        ensures root { IfOk result (λ n.
            Node n ≡ with_replacement (cursor_of self.now number) (Token replacement)) }
        ensures fits { IfOk result FitsNode }
        ensures err { IfErr result (WhyNoRoot (cursor_of self.now number) (Token replacement)) }
    {
        let parent = self.entry(number).parent as usize;
        let child = NodeOrToken::Token(replacement);
        let green = self.node(parent).replace_child(self.index(number), child)?;
        self.replace_node(parent, green)
    }
}
