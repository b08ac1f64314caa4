//! How a green node is written: its text, and for debugging its kind, length and number of
//! children.
ghost use Rattle.std.specs.Prelude.{◌+◌, ◌≤◌, ◌++◌, IfOk};

use super::{GreenChild, GreenNode, MAX_RECURSION};
use crate::utility_types::NodeOrToken;
use std::fmt::{self, Display};

impl fmt::Display for GreenNode {
    ghost use Rattle.std.specs.Prelude.{Some};
    ghost use Rattle.rowan_green.specs.Term.{node_text};

    ghost output = { λ node. Some (node_text node) };

    #[cycle(display)]
    fn fmt<W: fmt::Write>(&self, f: &mut fmt::Formatter<W>) -> fmt::Result {
        self.fmt_within(MAX_RECURSION, f)
    }
}

impl GreenNode {
    ghost use Rattle.std.specs.Prelude.{Some};
    ghost use Rattle.std.specs.Fmt.{DisplaysOnOk};
    ghost use Rattle.rowan_green.specs.Term.{node_text};

    // Writes the text, by recursion for `levels` levels. The list has the children that are still
    // to be written.
    #[cycle(display)]
    fn fmt_within<W: fmt::Write>(&self, levels: u32, f: &mut fmt::Formatter<W>) -> fmt::Result
        ensures { DisplaysOnOk W.write_str_gives f.old result (Some (node_text self.now)) f.new }
    {
        let mut rest = Vec::new(self.allocator());
        let mut next = Some(self.child_slice());
        while let Some(children) = next {
            next = GreenChild::display_first(children, levels, f, &mut rest)?;
        }
        Ok(())
    }
}

impl GreenChild {
    ghost use Rattle.std.specs.Prelude.{map};
    ghost use Rattle.rowan_green.specs.View.{child_term};
    ghost use Rattle.rowan_green.specs.Term.{joined_text};
    ghost use Rattle.rowan_green.specs.Sizes.{children_size};
    ghost use Rattle.rowan_green.specs.Unread.{unread_terms, unread_size, left_terms, left_size};
    ghost use Rattle.rowan_green.specs.Unread.{WritesUpTo};

    // Writes the first child, and returns the children that come next, as `hash_first` does.
    #[cycle(display)]
    fn display_first<'a, W: fmt::Write>(
        children: &'a [GreenChild],
        levels: u32,
        f: &mut fmt::Formatter<W>,
        rest: &mut Vec<&'a [GreenChild]>,
    ) -> Result<Option<&'a [GreenChild]>, fmt::Error>
        ensures writes { let before = map child_term children.now ++ unread_terms rest.old.items in
            IfOk result (λ next. WritesUpTo W.write_str_gives f.old (joined_text before)
            (joined_text (left_terms next rest.new.items)) f.new) }
        ensures smaller { IfOk result (λ next. left_size next rest.new.items
            ≤ children_size children.now + unread_size rest.old.items) }
    {
        let Some((child, behind)) = children.split_first() else {
            return Ok(rest.pop());
        };
        match child.as_ref() {
            NodeOrToken::Node(node) => {
                if levels > 0 {
                    node.fmt_within(levels - 1, f)?;
                    return Ok(Some(behind));
                }
                if rest.push(behind).is_err() {
                    node.fmt(f)?;
                    return Ok(Some(behind));
                }
                Ok(Some(node.child_slice()))
            }
            NodeOrToken::Token(token) => {
                token.fmt(f)?;
                Ok(Some(behind))
            }
        }
    }
}

impl fmt::Debug for GreenNode {
    fn fmt<W: fmt::Write>(&self, f: &mut fmt::Formatter<W>) -> fmt::Result {
        f.debug_struct("GreenNode")
            .field("kind", &self.kind())
            .field("text_len", &self.text_len())
            .field("n_children", &self.child_slice().len())
            .finish()
    }
}
