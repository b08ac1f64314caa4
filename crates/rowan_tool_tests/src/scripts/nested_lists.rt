//! A parser of nested lists of words, as the README shows it. Every text has a tree: a list that is
//! never closed runs to the end.
ghost use Rattle.std.specs.Prelude.{◌≡◌, IfOk};
ghost use Rattle.rowan.specs.Term.{node_text};

use rowan::{Fault, GreenNode, GreenNodeBuilder, SyntaxKind};
use std::alloc::Global;

const TOKEN: SyntaxKind = SyntaxKind(0);

const LIST: SyntaxKind = SyntaxKind(1);

const ROOT: SyntaxKind = SyntaxKind(2);

/// Parses nested lists of words. Errors: `Memory`, or a limit of trees that is passed.
pub fn parse(alloc: Global, text: &str) -> Result<GreenNode, Fault>
    ensures { IfOk result (λ tree. node_text tree ≡ text.now) }
{
    let mut builder = GreenNodeBuilder::new(alloc);
    builder.start_node(ROOT)?;
    let mut open_lists: u64 = 0;
    let mut rest = text;
    while !rest.is_empty() {
        let letters = rest.bytes().take_while(u8::is_ascii_alphanumeric).count();
        let (token, others) = rest.split_at(rest.ceil_char_boundary(letters.max(1)));
        if token == "(" {
            builder.start_node(LIST)?;
            open_lists = open_lists.saturating_add(1);
        }
        builder.token(TOKEN, token)?;
        if token == ")" && open_lists > 0 {
            builder.finish_node()?;
            open_lists -= 1;
        }
        rest = others;
    }
    for _list in 0..open_lists {
        builder.finish_node()?;
    }
    builder.finish_node()?;
    Ok(builder.finish()?)
}

#[cfg(test)]
mod test {
    use super::parse;
    use std::test::Fail;

    #[test]
    fn no_text_is_lost(rt: HostRuntime) -> Result<(), Fail> {
        for text in ["", "(a (b c))", ")) ((é"] {
            assert!(rt; parse(rt.alloc(), text)?.to_string(rt.alloc())?.as_str() == text);
        }
        Ok(())
    }
}
