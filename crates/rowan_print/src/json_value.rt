//! Nodes and tokens as JSON.
ghost use Rattle.std.specs.Prelude.{◌≡◌, map, IfOk, OnOk};
ghost use Rattle.serde_json.specs.View.{view};
ghost use Rattle.rowan_table.specs.Cursor.{text_range};
ghost use Rattle.rowan_cursor.specs.Refs.{node_place, token_place, element_place};
ghost use Rattle.rowan_print.specs.Printed.{raw_name, kind_name, node_object, tree_json};
ghost use Rattle.rowan_print.specs.Unfinished.{values_of, after_enter, after_leave};

use crate::language::Language;
use rowan_cursor::cursor::{SyntaxElementRef, SyntaxNodeRef, SyntaxTokenRef};
use rowan_green::utility_types::{NodeOrToken, WalkEvent};
use serde_json::{Value, json};
use std::alloc::{AllocError, Global};
use std::mem;

// The value of a node and of all that is in it.
pub fn node_json<L: Language>(alloc: Global, node: SyntaxNodeRef<'_>) -> Result<Value, AllocError>
    ensures { IfOk result (λ v.
        view v ≡ tree_json (raw_name L.name L.meaning) (node_place node.entry)) }
{
    let mut draft = Draft::new(alloc);
    for event in node.preorder_with_tokens() {
        match event {
            WalkEvent::Enter(element) => draft.enter::<L>(alloc, element)?,
            WalkEvent::Leave(element) => draft.leave::<L>(alloc, element)?,
        }
    }
    Ok(draft.inner.pop().unwrap_or_default())
}

// The value of a token.
pub fn token_json<L: Language>(
    alloc: Global,
    token: SyntaxTokenRef<'_>,
) -> Result<Value, AllocError>
    ensures { IfOk result (λ v.
        view v ≡ tree_json (raw_name L.name L.meaning) (token_place token.entry)) }
{
    let green = token.green();
    let kind = L::kind_name(L::kind_from_raw(green.kind()));
    let range = token.text_range();
    let start = u32::from(range.start());
    let end = u32::from(range.end());
    let text = green.text();
    json!(in alloc; {"kind": kind, "text": text, "text_range": [start, end]})
}

// The value of a node, by those of its children.
fn node_object<L: Language>(
    alloc: Global,
    node: SyntaxNodeRef<'_>,
    children: Vec<Value>,
) -> Result<Value, AllocError>
    ensures { let place = node_place node.entry in IfOk result (λ v. view v
        ≡ node_object (kind_name (raw_name L.name L.meaning) place) (text_range place)
        (map view children.items)) }
{
    let kind = L::kind_name(L::kind_from_raw(node.green().kind()));
    let range = node.text_range();
    let start = u32::from(range.start());
    let end = u32::from(range.end());
    let children = Value::Array(children);
    json!(in alloc; {"children": children, "kind": kind, "text_range": [start, end]})
}

// The values that are finished: those of the children of the innermost open node, and of the nodes
// around it, outermost first.
#[derive(Drop)]
struct Draft {
    inner: Vec<Value>,
    outer: Vec<Vec<Value>>,
}

impl Draft {
    ghost use Rattle.std.specs.Prelude.{[]};

    fn new(alloc: Global) -> Draft
        ensures inner { (values_of result).inner ≡ [] }
        ensures outer { (values_of result).outer ≡ [] }
    {
        Draft {
            inner: Vec::new(alloc),
            outer: Vec::new(alloc),
        }
    }

    fn enter<L: Language>(
        &mut self,
        alloc: Global,
        element: SyntaxElementRef<'_>,
    ) -> Result<(), AllocError>
        ensures { OnOk result (values_of self.new
            ≡ after_enter (raw_name L.name L.meaning) (element_place element.entry)
            (values_of self.old)) }
    {
        match element {
            NodeOrToken::Node(_) => {
                let inner = mem::replace(&mut self.inner, Vec::new(alloc));
                Ok(self.outer.push(inner)?)
            }
            NodeOrToken::Token(token) => {
                let value = token_json::<L>(alloc, token)?;
                Ok(self.inner.push(value)?)
            }
        }
    }

    fn leave<L: Language>(
        &mut self,
        alloc: Global,
        element: SyntaxElementRef<'_>,
    ) -> Result<(), AllocError>
        ensures { OnOk result (values_of self.new
            ≡ after_leave (raw_name L.name L.meaning) (element_place element.entry)
            (values_of self.old)) }
    {
        match element {
            NodeOrToken::Node(node) => {
                let around = self.outer.pop().unwrap_or(Vec::new(alloc));
                let children = mem::replace(&mut self.inner, around);
                let value = node_object::<L>(alloc, node, children)?;
                Ok(self.inner.push(value)?)
            }
            NodeOrToken::Token(_) => Ok(()),
        }
    }
}
