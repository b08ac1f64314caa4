use rowan::ast::SyntaxNodePtr;
use rowan::{Fault, GreenNode, GreenToken, SyntaxNode, SyntaxToken, TextRange, TextSize};
use rowan_tool::sexp::{self, Lang};
use std::alloc::Global;
use std::hash::{DefaultHasher, Hash, Hasher};

/// What is done with a deep tree.
#[derive(Clone, Copy)]
pub enum Operation {
    /// Parse it, and drop it.
    Parse,
    /// Compare it with another.
    Compare,
    /// Hash it, and another.
    Hash,
    /// Write its text.
    Show,
    /// Go through its nodes.
    Walk,
    /// Search the token in the middle, and what covers the place before it.
    Search,
    /// Copy its text.
    Copy,
    /// Replace the token in the middle.
    Replace,
    /// Resolve a pointer to the innermost list.
    Point,
    /// Make its lines.
    Lines,
    /// Make its JSON, and drop that.
    Json,
}

impl Operation {
    /// The operation of that name.
    pub fn from_word(word: &str) -> Option<Operation> {
        match word {
            "parse" => Some(Operation::Parse),
            "compare" => Some(Operation::Compare),
            "hash" => Some(Operation::Hash),
            "show" => Some(Operation::Show),
            "walk" => Some(Operation::Walk),
            "search" => Some(Operation::Search),
            "copy" => Some(Operation::Copy),
            "replace" => Some(Operation::Replace),
            "point" => Some(Operation::Point),
            "lines" => Some(Operation::Lines),
            "json" => Some(Operation::Json),
            _ => None,
        }
    }

    /// Does it, and answers how many bytes the tree has.
    pub fn run(self, alloc: Global, levels: usize) -> Result<usize, Fault> {
        let text = nested(alloc, levels)?;
        if self.answers(alloc, text.as_str())? {
            Ok(text.len())
        } else {
            Err(Fault::NotFound)
        }
    }

    /// Whether the tree of a text answers as it has to.
    fn answers(self, alloc: Global, text: &str) -> Result<bool, Fault> {
        let tree = sexp::parse(alloc, text)?;
        match self {
            Operation::Parse => Ok(true),
            Operation::Compare => Ok(tree.green() == sexp::parse(alloc, text)?.green()),
            Operation::Hash => {
                let other = sexp::parse(alloc, text)?;
                Ok(hash_of(tree.green()) == hash_of(other.green()))
            }
            Operation::Show => Ok(tree.green().to_string(alloc)?.as_str() == text),
            _ => self.answers_from(alloc, &tree.syntax(alloc)?, text),
        }
    }

    /// The same of a cursor at its root.
    fn answers_from(
        self,
        alloc: Global,
        root: &SyntaxNode<Lang>,
        text: &str,
    ) -> Result<bool, Fault> {
        match self {
            Operation::Walk => Ok(count_nodes(root)? > text.len() / 2),
            Operation::Search => Ok(
                covered_in_the_middle(root)? && token_in_the_middle(root)?.is_some(),
            ),
            Operation::Copy => Ok(root.text()?.to_text()?.as_str() == text),
            Operation::Replace => replace(alloc, root),
            Operation::Point => point(root),
            Operation::Lines => Ok(root.debug_tree(alloc)?.len() > text.len()),
            _ => {
                let _ = root.to_json(alloc)?;
                Ok(true)
            }
        }
    }
}

fn hash_of(tree: &GreenNode) -> u64 {
    let mut state = DefaultHasher::new();
    tree.hash(&mut state);
    state.finish()
}

fn count_nodes(root: &SyntaxNode<Lang>) -> Result<usize, Fault> {
    let mut count: usize = 0;
    for node in root.descendants() {
        let _ = node?;
        count = count.wrapping_add(1);
    }
    Ok(count)
}

/// The middle of the text: behind the last of the opening parentheses.
fn middle(root: &SyntaxNode<Lang>) -> TextSize {
    TextSize::from(u32::from(root.text_range().len()) / 2)
}

/// The last of the opening parentheses.
fn token_in_the_middle(root: &SyntaxNode<Lang>) -> Result<Option<SyntaxToken<Lang>>, Fault> {
    let offset = middle(root);
    if root.text_range().contains_inclusive(offset) {
        Ok(root.token_at_offset(offset)?.left_biased())
    } else {
        Ok(None)
    }
}

/// Whether something covers the place in the middle.
fn covered_in_the_middle(root: &SyntaxNode<Lang>) -> Result<bool, Fault> {
    let offset = middle(root);
    let range = TextRange::new(offset, offset);
    if root.text_range().contains_range(range) {
        let _ = root.covering_element(range)?;
        Ok(true)
    } else {
        Ok(false)
    }
}

/// Whether the tree with another token in the middle is as much longer as that is.
fn replace(alloc: Global, root: &SyntaxNode<Lang>) -> Result<bool, Fault> {
    let Some(old) = token_in_the_middle(root)? else {
        return Ok(false);
    };
    let new = GreenToken::new(alloc, old.green().kind(), "[[[")?;
    let tree = old.replace_with(new)?;
    Ok(tree.text_len() > root.text_range().len())
}

/// Whether a pointer to the innermost list leads there.
fn point(root: &SyntaxNode<Lang>) -> Result<bool, Fault> {
    let Some(token) = token_in_the_middle(root)? else {
        return Ok(false);
    };
    let Some(list) = token.parent()? else {
        return Ok(false);
    };
    match SyntaxNodePtr::new(&list).try_to_node(root)? {
        Some(found) => Ok(found.text_range() == list.text_range()),
        None => Ok(false),
    }
}

/// That many lists, one in the other.
fn nested(alloc: Global, levels: usize) -> Result<String, Fault> {
    let mut text = String::new(alloc);
    for _ in 0..levels {
        text.push('(')?;
    }
    for _ in 0..levels {
        text.push(')')?;
    }
    Ok(text)
}
