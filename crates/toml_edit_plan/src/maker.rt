//! New nodes, which are parsed from texts.
ghost use Rattle.std.specs.Prelude.{◌≡◌, true, IfOk, IfSome};
ghost use Rattle.rowan.specs.Term.{node_text};

use crate::error::{Cause, TomlEditError};
use crate::places::Node;
use rowan::{Fault, GreenNode, SyntaxNode};
use std::alloc::Global;
use toml_document::{Version, validate};
use toml_syntax::{Kind, Toml, TomlParser};

/// Makes new nodes.
#[derive(Clone, Copy)]
pub struct Maker<'p> {
    pub alloc: Global,
    pub parser: &'p TomlParser,
    /// What new values are held to.
    pub version: Version,
}

/// The kinds of values.
pub(crate) const VALUES: &[Kind] = &[Kind::Scalar, Kind::Array, Kind::InlineTable];

impl Maker<'_> {
    /// The value that a text is.
    ///
    /// Errors: `Refused` with `BadValue` where the text is not one value and nothing else; `Failed`
    /// where the text is too long or an allocation failed.
    pub fn value(&self, text: &str) -> Result<GreenNode, TomlEditError>
        ensures { IfOk result (λ n. node_text n ≡ text.now) }
    {
        let line = format!(in self.alloc; "x = {text}")?;
        self.node(&line, VALUES, text)
    }

    /// An entry: the key, ` = `, the value and the end of its line, each as it is.
    ///
    /// Errors: as those of `value`.
    pub fn entry(&self, text: &str) -> Result<GreenNode, TomlEditError>
        ensures { IfOk result (λ n. node_text n ≡ text.now) }
    {
        self.node(text, &[Kind::Entry], text)
    }

    /// A table with its header and entries.
    ///
    /// Errors: as those of `value`.
    pub fn section(&self, text: &str) -> Result<GreenNode, TomlEditError>
        ensures { IfOk result (λ n. node_text n ≡ text.now) }
    {
        self.node(text, &[Kind::Table, Kind::ArrayTable], text)
    }

    /// A part of a key.
    ///
    /// Errors: as those of `value`.
    pub fn key_part(&self, text: &str) -> Result<GreenNode, TomlEditError>
        ensures { IfOk result (λ n. node_text n ≡ text.now) }
    {
        let line = format!(in self.alloc; "{text} = 0")?;
        self.node(&line, &[Kind::KeyPart], text)
    }

    /// The first node of some kinds in a line without errors, if its text is the wanted one.
    fn node(&self, line: &str, kinds: &[Kind], wanted: &str) -> Result<GreenNode, TomlEditError>
        ensures { IfOk result (λ n. node_text n ≡ wanted.now) }
    {
        let Some(root) = self.tree(line)? else {
            return Err(TomlEditError::nowhere(Cause::BadValue));
        };
        match node_with_text(self.alloc, root.as_ref(), kinds, wanted)? {
            Some(node) => Ok(node),
            None => Err(TomlEditError::nowhere(Cause::BadValue)),
        }
    }

    /// The tree of a text, if nothing is wrong with it.
    fn tree(&self, text: &str) -> Result<Option<SyntaxNode<Toml>>, Fault> {
        let parse = self.parser.parse(self.alloc, text)?;
        if !parse.errors.is_empty() {
            return Ok(None);
        }
        let root: SyntaxNode<Toml> = parse.syntax(self.alloc)?;
        let problems = validate(self.alloc, root.as_ref(), self.version)?;
        match problems.is_empty() {
            true => Ok(Some(root)),
            false => Ok(None),
        }
    }
}

/// The first node of some kinds, if it has a text.
fn node_with_text(
    alloc: Global,
    root: Node<'_>,
    kinds: &[Kind],
    text: &str,
) -> Result<Option<GreenNode>, Fault>
    ensures { IfOk result (λ found. IfSome found (λ n. node_text n ≡ text.now)) }
{
    let Some(node) = root.descendants().find(|node| kinds.contains(&node.kind())) else {
        return Ok(None);
    };
    copy_with_text(alloc, node.green(), text)
}

/// A node, if it has a text.
fn copy_with_text(alloc: Global, node: &GreenNode, text: &str) -> Result<Option<GreenNode>, Fault>
    ensures { IfOk result (λ found. IfSome found (λ n. node_text n ≡ text.now)) }
{
    let has_text = has_text(alloc, node, text)?;
    if !has_text {
        return Ok(None);
    }
    Ok(Some(node.clone()?))
}

fn has_text(alloc: Global, node: &GreenNode, text: &str) -> Result<bool, Fault>
    ensures { IfOk result (λ same. same ≡ true → node_text node.now ≡ text.now) }
{
    let own = node.to_string(alloc)?;
    Ok(own.as_str() == text)
}
