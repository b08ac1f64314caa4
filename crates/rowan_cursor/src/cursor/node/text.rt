//! The text of a node.
ghost use Rattle.std.specs.Prelude.{◌≡◌, IfOk, IfErr};
ghost use Rattle.rowan_table.specs.SyntaxText.{whole_text};

use super::SyntaxNode;
use crate::syntax_text::{SyntaxText, SyntaxTextRef};
use rowan_green::fault::Fault;

impl SyntaxNode {
    /// The text of the node. Refused only for want of memory.
    pub fn text(&self) -> Result<SyntaxText, Fault>
        ensures ok { IfOk result (λ text. text ≡ whole_text self.now) }
        ensures err { IfErr result (λ e. e ≡ Fault.Memory) }
    {
        SyntaxTextRef::whole(&self.table, self.number).to_owned()
    }
}
