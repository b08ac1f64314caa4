//! The text of a borrowed node.
ghost use Rattle.std.specs.Prelude.{◌≡◌};
ghost use Rattle.rowan_table.specs.SyntaxText.{whole_text};

use super::SyntaxNodeRef;
use crate::syntax_text::SyntaxTextRef;

impl<'tree> SyntaxNodeRef<'tree> {
    ghost use Rattle.rowan_cursor.specs.Refs.{node_place};
    ghost use Rattle.rowan_cursor.specs.RefTexts.{text_slice};

    /// The text of the node, borrowed from the tree.
    pub fn text(&self) -> SyntaxTextRef<'tree>
        ensures { text_slice result ≡ whole_text (node_place self.now) }
    {
        SyntaxTextRef::whole(self.table, self.number)
    }
}
