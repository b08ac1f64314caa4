//! A parser of sums and products, as `1 + 2 * (3`, by calls of a builder and no events. No text is
//! refused for its form, and the tree has each byte of it: a group that is never closed runs to the
//! end, and what has no place stands in a node of its own.
ghost use Rattle.std.specs.Prelude.{◌≡◌, ◌++◌, IfOk, OnOk};
ghost use Rattle.rowan_builder.specs.Loan.{text_so_far};
ghost use Rattle.rowan_green.specs.Term.{node_text};

use arithmetic_syntax::{Arithmetic, Kind};
use rowan::{Checkpoint, Fault, GreenNode, GreenNodeBuilder, Language, OwnedCache, SyntaxKind};
use std::alloc::Global;

type Builder<'a> = GreenNodeBuilder<'a, OwnedCache>;

/// Parses a text. Refused where a node would pass a limit of trees, and for want of memory.
pub fn parse(alloc: Global, text: &str) -> Result<GreenNode, Fault>
    ensures { IfOk result (λ tree. node_text tree ≡ text.now) }
{
    let mut builder = GreenNodeBuilder::new(alloc);
    builder.start_node(raw(Kind::Root))?;
    let mut sum = Sum::new(builder.checkpoint());
    let mut around = Vec::new(alloc);
    let mut rest = text;
    while !rest.is_empty() {
        let digits = rest.bytes().take_while(u8::is_ascii_digit).count();
        let (token, others) = rest.split_at(rest.ceil_char_boundary(digits.max(1)));
        sum = place(&mut builder, sum, &mut around, token)?;
        rest = others;
    }
    for outer in around.into_iter().rev() {
        sum.close(&mut builder)?;
        builder.finish_node()?;
        sum = outer;
    }
    sum.close(&mut builder)?;
    builder.finish_node()?;
    Ok(builder.finish()?)
}

/// Puts a token where it belongs, and gives the innermost sum that is open then.
fn place(
    builder: &mut Builder<'_>,
    mut sum: Sum,
    around: &mut Vec<Sum>,
    token: &str,
) -> Result<Sum, Fault>
    ensures { OnOk result (text_so_far builder.new ≡ text_so_far builder.old ++ token.now) }
{
    match token {
        "+" => {
            sum.close_product(builder)?;
            builder.token(raw(Kind::Plus), token)?;
            sum.product = builder.checkpoint();
            sum.has_plus = true;
            sum.has_star = false;
        }
        "*" => {
            builder.token(raw(Kind::Star), token)?;
            sum.has_star = true;
        }
        "(" => {
            around.push(sum)?;
            builder.start_node(raw(Kind::Group))?;
            builder.token(raw(Kind::Open), token)?;
            sum = Sum::new(builder.checkpoint());
        }
        ")" if let Some(outer) = around.pop() => {
            sum.close(builder)?;
            builder.token(raw(Kind::Close), token)?;
            builder.finish_node()?;
            sum = outer;
        }
        " " => builder.token(raw(Kind::Space), token)?,
        _ if is_number(token) => builder.token(raw(Kind::Number), token)?,
        _ => place_error(builder, token)?,
    }
    Ok(sum)
}

fn is_number(token: &str) -> bool {
    token.starts_with(|c: char| c.is_ascii_digit())
}

/// Puts a node around what has no place.
fn place_error(builder: &mut Builder<'_>, token: &str) -> Result<(), Fault>
    ensures { OnOk result (text_so_far builder.new ≡ text_so_far builder.old ++ token.now) }
{
    builder.start_node(raw(Kind::Error))?;
    builder.token(raw(Kind::Error), token)?;
    builder.finish_node()
}

/// A sum that is not complete: where it and its last product begin, and whether they have a sign
/// yet.
#[derive(Clone, Copy)]
struct Sum {
    start: Checkpoint,
    product: Checkpoint,
    has_plus: bool,
    has_star: bool,
}

impl Sum {
    fn new(start: Checkpoint) -> Sum {
        Sum {
            start,
            product: start,
            has_plus: false,
            has_star: false,
        }
    }

    /// Puts a node around the last product, if there is a star in it.
    fn close_product(&self, builder: &mut Builder<'_>) -> Result<(), Fault>
        ensures { text_so_far builder.new ≡ text_so_far builder.old }
    {
        if self.has_star {
            builder.start_node_at(self.product, raw(Kind::Product))?;
            builder.finish_node()?;
        }
        Ok(())
    }

    /// Puts a node around the last product and one around the sum, where there is a sign in it.
    fn close(&self, builder: &mut Builder<'_>) -> Result<(), Fault>
        ensures { text_so_far builder.new ≡ text_so_far builder.old }
    {
        self.close_product(builder)?;
        if self.has_plus {
            builder.start_node_at(self.start, raw(Kind::Sum))?;
            builder.finish_node()?;
        }
        Ok(())
    }
}

fn raw(kind: Kind) -> SyntaxKind {
    Arithmetic::kind_to_raw(kind)
}

#[cfg(test)]
mod test {
    use super::{Arithmetic, parse};
    use rowan::SyntaxNode;
    use std::test::Fail;

    const TREE: &str = r#"ROOT@0..13
  SUM@0..13
    NUMBER@0..2 "12"
    SPACE@2..3 " "
    PLUS@3..4 "+"
    PRODUCT@4..13
      SPACE@4..5 " "
      NUMBER@5..6 "2"
      SPACE@6..7 " "
      STAR@7..8 "*"
      SPACE@8..9 " "
      GROUP@9..13
        OPEN@9..10 "("
        NUMBER@10..11 "3"
        ERROR@11..13
          ERROR@11..13 "é"
"#;

    #[test]
    fn an_open_group_and_a_strange_character_are_parsed(rt: HostRuntime) -> Result<(), Fail> {
        let green = parse(rt.alloc(), "12 + 2 * (3é")?;
        let root: SyntaxNode<Arithmetic> = SyntaxNode::new_root(rt.alloc(), green)?;
        assert!(rt; root.debug_tree(rt.alloc())?.as_str() == TREE);
        Ok(())
    }

    #[test]
    fn no_text_is_lost(rt: HostRuntime) -> Result<(), Fail> {
        for text in ["", "1*2+3*4", ") (1 + 2) * 3", "((\t", "+**+"] {
            assert!(rt; parse(rt.alloc(), text)?.to_string(rt.alloc())?.as_str() == text);
        }
        Ok(())
    }
}
