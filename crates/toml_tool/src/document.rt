//! A document that was read, with what is wrong with it.
use anyhow::Result;
use rowan::{GreenNode, SyntaxNode};
use rowan_parser::SyntaxError;
use std::alloc::Global;
use toml_document::{Problem, Reading, Values, Version, read};
use toml_syntax::{Toml, TomlParser};

/// A document.
#[derive(Drop)]
pub(crate) struct Document<'a> {
    pub text: &'a str,
    /// What the file is called in messages.
    pub name: &'a str,
    pub green: GreenNode,
    pub errors: Vec<SyntaxError>,
    pub problems: Vec<Problem>,
    pub values: Values,
}

impl<'a> Document<'a> {
    pub fn new(
        alloc: Global,
        parser: &TomlParser,
        text: &'a str,
        name: &'a str,
        version: Version,
    ) -> Result<Document<'a>> {
        let parse = parser.parse(alloc, text)?;
        let root: SyntaxNode<Toml> = parse.syntax(alloc)?;
        let Reading { values, problems } = read(alloc, root.as_ref(), version)?;
        Ok(Document {
            text,
            name,
            green: parse.green,
            errors: parse.errors,
            problems,
            values,
        })
    }

    /// Whether nothing is wrong with it.
    pub fn is_right(&self) -> bool {
        self.errors.is_empty() && self.problems.is_empty()
    }
}
