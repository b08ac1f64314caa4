//! What a script declares.
use crate::nodes::{DeclarationRef, HasNameRef, Root};
use rowan::Fault;
use rowan::ast::{AstNode, support};
use std::alloc::Global;

impl Root {
    /// The names of the functions and unions of the script, in the order of the text, as an editor
    /// lists them. Those in blocks are left out.
    ///
    /// Errors: `Memory` if an allocation failed.
    pub fn names(&self, alloc: Global) -> Result<Vec<String>, Fault> {
        let mut names = Vec::new(alloc);
        for declaration in support::children_ref::<DeclarationRef<'_>>(self.syntax().as_ref()) {
            if let Some(name) = declaration.name() {
                names.push(String::from_str(alloc, name.text())?)?;
            }
        }
        Ok(names)
    }
}
