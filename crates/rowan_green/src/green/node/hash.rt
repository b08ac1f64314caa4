//! What a green node gives to a hasher: its kind, the number of its children, and each of them.
ghost use Rattle.std.specs.Prelude.{◌≡◌, ◌+◌, ◌≤◌, ◌++◌};

use super::{GreenChild, GreenNode, MAX_RECURSION};
use crate::utility_types::NodeOrToken;
use std::hash::{Hash, Hasher};

impl Hash for GreenNode {
    ghost use Rattle.rowan_green.specs.Same.{same_node-decides};
    ghost use Rattle.rowan_green.specs.Feeds.{fed_node};
    ghost use Rattle.std.specs.Hash.{same_Alike};

    ghost hash_input = { fed_node };

    ghost respects_eq = { (same_Alike fed_node same_node-decides).fed };

    #[cycle(hash)]
    fn hash<H: Hasher>(&self, state: &mut H) {
        self.hash_within(MAX_RECURSION, state);
    }
}

impl GreenNode {
    ghost use Rattle.std.specs.Prelude.{map, fold};
    ghost use Rattle.rowan_green.specs.View.{child_term};
    ghost use Rattle.rowan_green.specs.Feeds.{fed_head, fed_node};

    // Hashes the kind and the number of children.
    fn hash_head<H: Hasher>(&self, state: &mut H)
        ensures { state.new ≡ fold H.write state.old (fed_head self.now) }
    {
        self.kind().hash(state);
        self.child_slice().len().hash(state);
    }

    // Hashes the node, by recursion for `levels` levels. The list has the children that are still
    // to be hashed.
    #[cycle(hash)]
    fn hash_within<H: Hasher>(&self, levels: u32, state: &mut H)
        ensures { state.new ≡ fold H.write state.old (fed_node self.now) }
    {
        self.hash_head(state);
        let mut rest = Vec::new(self.allocator());
        let mut next = Some(self.child_slice());
        while let Some(children) = next {
            next = GreenChild::hash_first(children, levels, state, &mut rest);
        }
    }
}

impl GreenChild {
    ghost use Rattle.std.specs.Prelude.{map, fold};
    ghost use Rattle.rowan_green.specs.View.{child_term};
    ghost use Rattle.rowan_green.specs.Feeds.{fed_terms};
    ghost use Rattle.rowan_green.specs.Sizes.{children_size};
    ghost use Rattle.rowan_green.specs.Unread.{unread_terms, unread_size, left_terms, left_size};

    // Hashes the first child, and returns the children that come next. A node is hashed whole where
    // levels are left, or where the memory for the list is refused. Else its children come next,
    // and those behind it are put on the list. Where no child is left, the last of the list come
    // next.
    #[cycle(hash)]
    fn hash_first<'a, H: Hasher>(
        children: &'a [GreenChild],
        levels: u32,
        state: &mut H,
        rest: &mut Vec<&'a [GreenChild]>,
    ) -> Option<&'a [GreenChild]>
        ensures fed { fold H.write state.new (fed_terms (left_terms result rest.new.items))
            ≡ fold H.write state.old
            (fed_terms (map child_term children.now ++ unread_terms rest.old.items)) }
        ensures smaller { left_size result rest.new.items
            ≤ children_size children.now + unread_size rest.old.items }
    {
        let Some((child, behind)) = children.split_first() else {
            return rest.pop();
        };
        match child.as_ref() {
            NodeOrToken::Node(node) => {
                state.write_u8(0);
                if levels > 0 {
                    node.hash_within(levels - 1, state);
                    return Some(behind);
                }
                if rest.push(behind).is_err() {
                    node.hash(state);
                    return Some(behind);
                }
                node.hash_head(state);
                Some(node.child_slice())
            }
            NodeOrToken::Token(token) => {
                state.write_u8(1);
                token.hash(state);
                Some(behind)
            }
        }
    }
}
