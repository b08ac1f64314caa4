//! The table that all cursors of one tree share: an entry for each node and token.

pub mod chunks;
mod count;
mod draft;
pub mod entry;
mod equal;
mod events;
pub mod nodes;
mod replace;
mod search;
pub mod slice;

ghost use Rattle.rowan_table.specs.Table.{IsTable, AreNodes, all_facts};
ghost use Rattle.rowan_table.specs.TableProp.{IsTable-prop, AreNodes-prop};

pub use chunks::ChunkWalk;
use draft::Draft;
use entry::Entry;
use nodes::Nodes;
use rowan_green::green::{GreenElementRef, GreenNode, GreenToken};
use rowan_green::text::{TextRange, TextSize};
use rowan_green::utility_types::NodeOrToken;
pub use slice::Slice;
use std::alloc::{AllocError, Global};
use std::ops::Range;

/// A tree as a table of its nodes and tokens. Each is known by the number of its entry; the root
/// has 0, and the children of a node stand side by side, behind it. The nodes stand beside the
/// entries, in the order in which their children do.
#[derive(Drop)]
pub struct Table {
    pub entries: Vec<Entry>,
    pub nodes: Nodes,
    pub ghost numbered: { AreNodes nodes entries.items } by { AreNodes-prop nodes entries.items },
    pub ghost complete: { IsTable (all_facts nodes entries.items) } by { IsTable-prop _ },
}

impl Table {
    ghost use Rattle.std.specs.Prelude.{◌≡◌, ◌+◌, ◌<◌, None, IfOk, IfSome, IfNone, IsNone, Some};
    ghost use Rattle.std.specs.Prelude.{length, reverse, slice_get};
    ghost use Rattle.rowan_green.specs.Lent.{pointee};
    ghost use Rattle.rowan_table.specs.Chunks.{IsTokenInside, remaining_leaves};
    ghost use Rattle.rowan_table.specs.Cursor.{StandsAt, StandsAtToken, term_at, index};
    ghost use Rattle.rowan_table.specs.Cursor.{text_range};
    ghost use Rattle.rowan_table.specs.Equal.{start_of};
    ghost use Rattle.rowan_table.specs.Moves.{parent_path, first_at, first_node_at};
    ghost use Rattle.rowan_table.specs.Moves.{first_leaf_path, last_leaf_path, next_leaf_path};
    ghost use Rattle.rowan_table.specs.Moves.{prev_leaf_path};
    ghost use Rattle.rowan_table.specs.Pass.{ComesBehind, ComesNext, ComesBefore, ComesBack};
    ghost use Rattle.rowan_table.specs.TableView.{root_of, path_at, cursor_of, stands_for_node};
    ghost use Rattle.rowan_table.specs.TableView.{row_paths, paths_below, paths_behind};
    ghost use Rattle.rowan_table.specs.TableView.{paths_before, IsWithin, IsNodeIn, IsTokenIn};
    ghost use Rattle.rowan_table.specs.TableView.{IsStretch, IsEntryAt, IsNodeNumber};
    ghost use Rattle.rowan_table.specs.TableView.{AreChildNumbers, IsChildrenEnd, StretchShows};
    ghost use Rattle.rowan_table.specs.TableView.{StretchShowsBack, Leads, LeadsToNode};
    ghost use Rattle.rowan_table.specs.TableView.{LeadsToToken};
    ghost use Rattle.rowan_table.specs.TablePass.{StandsInside, first_token_from};
    ghost use Rattle.rowan_table.specs.TablePass.{first_token_past, first_token_behind};
    ghost use Rattle.rowan_table.specs.TablePass.{last_token_until, last_token_to};
    ghost use Rattle.rowan_table.specs.TablePass.{last_token_before};

    /// The table of a green tree. Refused only for want of memory, or of numbers: they have 32
    /// bits.
    pub fn new(alloc: Global, green: GreenNode) -> Result<Table, AllocError>
        ensures { IfOk result (λ table. root_of table ≡ green) }
    {
        let mut draft = Draft::new(alloc, &green)?;
        while let Some(parent) = draft.next() {
            if let Err(refused) = draft.push_children(&parent) {
                // The nodes that have places are let go one by one behind the root's owner, so that
                // each drop goes through what has none alone, and not through the whole tree.
                let _placed = draft.into_nodes();
                drop(green);
                return Err(refused);
            }
        }
        Ok(draft.finish())
    }

    // What stands at a number.
    fn entry(&self, number: usize) -> &Entry
        requires { IsWithin self.now number }
        ensures { IsEntryAt self.now number result.now }
    {
        &self.entries[number]
    }

    // The number among the nodes; none, where a token stands there.
    fn node_number(&self, number: usize) -> Option<usize>
        requires { IsWithin self.now number }
        ensures some { IfSome result (IsNodeNumber self.now number) }
        ensures none { IsNone result → IsTokenIn self.now number }
    {
        Some(self.entries[number].node.number()? as usize)
    }

    /// Whether a node stands at a number.
    pub fn is_node(&self, number: usize) -> bool
        requires { IsWithin self.now number }
        ensures { result ≡ stands_for_node self.now number }
    {
        self.node_number(number).is_some()
    }

    /// The parent.
    pub fn parent(&self, number: usize) -> Option<usize>
        requires { IsWithin self.now number }
        ensures found { LeadsToNode self.now result (parent_path (path_at self.now number)) }
        ensures earlier { IfSome result (λ n. n < number) }
    {
        if number == 0 {
            return None;
        }
        Some(self.entry(number).parent as usize)
    }

    /// The first child, tokens too.
    pub fn first_child_or_token(&self, number: usize) -> Option<usize>
        requires { IsWithin self.now number }
        ensures { Leads self.now result (first_at (paths_below self.now number)) }
    {
        self.first_in(self.child_numbers(number))
    }

    /// The last child, tokens too.
    pub fn last_child_or_token(&self, number: usize) -> Option<usize>
        requires { IsWithin self.now number }
        ensures { Leads self.now result (first_at (reverse (paths_below self.now number))) }
    {
        self.last_in(self.child_numbers(number))
    }

    /// The next sibling, tokens too.
    pub fn next_sibling_or_token(&self, number: usize) -> Option<usize>
        requires { IsWithin self.now number }
        ensures { Leads self.now result (first_at (paths_behind self.now number)) }
    {
        if number == 0 {
            return None;
        }
        let len = self.entries.len();
        if number + 1 == len {
            return None;
        }
        // Siblings stand side by side.
        if self.entries[number + 1].parent != self.entry(number).parent {
            return None;
        }
        Some(number + 1)
    }

    /// The sibling before this one, tokens too.
    pub fn prev_sibling_or_token(&self, number: usize) -> Option<usize>
        requires { IsWithin self.now number }
        ensures { Leads self.now result (first_at (paths_before self.now number)) }
    {
        // The root stands alone, and before its first child.
        if number <= 1 {
            return None;
        }
        if self.entries[number - 1].parent != self.entry(number).parent {
            return None;
        }
        Some(number - 1)
    }

    /// The first child that is a node.
    pub fn first_child(&self, number: usize) -> Option<usize>
        requires { IsWithin self.now number }
        ensures { LeadsToNode self.now result
            (first_node_at (root_of self.now) (paths_below self.now number)) }
    {
        self.first_node_in(self.child_numbers(number))
    }

    /// The last child that is a node.
    pub fn last_child(&self, number: usize) -> Option<usize>
        requires { IsWithin self.now number }
        ensures { LeadsToNode self.now result
            (first_node_at (root_of self.now) (reverse (paths_below self.now number))) }
    {
        self.last_node_in(self.child_numbers(number))
    }

    /// The next sibling that is a node.
    pub fn next_sibling(&self, number: usize) -> Option<usize>
        requires { IsWithin self.now number }
        ensures { LeadsToNode self.now result
            (first_node_at (root_of self.now) (paths_behind self.now number)) }
    {
        let mut current = number;
        while let Some(next) = self.next_sibling_or_token(current) {
            if self.is_node(next) {
                return Some(next);
            }
            current = next;
        }
        None
    }

    /// The nearest sibling before this one that is a node.
    pub fn prev_sibling(&self, number: usize) -> Option<usize>
        requires { IsWithin self.now number }
        ensures { LeadsToNode self.now result
            (first_node_at (root_of self.now) (paths_before self.now number)) }
    {
        let mut current = number;
        while let Some(before) = self.prev_sibling_or_token(current) {
            if self.is_node(before) {
                return Some(before);
            }
            current = before;
        }
        None
    }

    /// The allocator with which the table was made.
    pub fn allocator(&self) -> Global {
        *self.entries.allocator()
    }

    /// Where the text lies in that of the root.
    pub fn text_range(&self, number: usize) -> TextRange
        requires { IsWithin self.now number }
        ensures { result ≡ text_range (cursor_of self.now number) }
    {
        let start = self.start(number);
        match self.node_number(number) {
            Some(node) => TextRange::at(start, self.nodes.green(node).text_len()),
            None => TextRange::new(start, self.end_of_token(number)),
        }
    }

    // Where the text starts.
    fn start(&self, number: usize) -> TextSize
        requires { IsWithin self.now number }
        ensures { result ≡ start_of (cursor_of self.now number) }
    {
        self.entry(number).start
    }

    // Where the text of a node ends.
    fn end_of_node(&self, number: usize) -> TextSize
        requires { IsNodeIn self.now number }
        ensures { result ≡ (text_range (cursor_of self.now number)).end }
    {
        TextRange::at(self.start(number), self.node(number).text_len()).end()
    }

    // Where the text of a token ends: where the next sibling starts, or else where the parent ends.
    fn end_of_token(&self, number: usize) -> TextSize
        requires { IsTokenIn self.now number }
        ensures { result ≡ (text_range (cursor_of self.now number)).end }
    {
        if let Some(next) = self.next_sibling_or_token(number) {
            return self.start(next);
        }
        self.end_of_node(self.entry(number).parent as usize)
    }

    /// The child at an index, tokens counted.
    pub fn child_at(&self, number: usize, index: usize) -> Option<usize>
        requires { IsWithin self.now number }
        ensures { Leads self.now result (slice_get (paths_below self.now number) index) }
    {
        let children = self.child_numbers(number);
        if index >= children.end - children.start {
            return None;
        }
        Some(children.start + index)
    }

    /// The node.
    pub fn node(&self, number: usize) -> &GreenNode
        requires { IsNodeIn self.now number }
        ensures { StandsAt (cursor_of self.now number) result.now }
    {
        let Some(node) = self.node_number(number) else {
            unreachable!();
        };
        self.nodes.green(node)
    }

    /// The token.
    pub fn token(&self, number: usize) -> &GreenToken
        requires { IsTokenIn self.now number }
        ensures { StandsAtToken (cursor_of self.now number) result.now }
    {
        match self.element(number) {
            NodeOrToken::Node(_) => unreachable!(),
            NodeOrToken::Token(token) => token,
        }
    }

    /// The node or token.
    pub fn element(&self, number: usize) -> GreenElementRef<'_>
        requires { IsWithin self.now number }
        ensures { term_at (cursor_of self.now number) ≡ Some (pointee result) }
    {
        if let Some(node) = self.node_number(number) {
            return NodeOrToken::Node(self.nodes.green(node));
        }
        let Some(above) = self.node_number(self.entry(number).parent as usize) else {
            unreachable!();
        };
        let index = number - self.nodes.first_child(above);
        let Some(found) = self.nodes.green(above).child_ref(index) else {
            unreachable!();
        };
        found.1
    }

    /// The index among all children of the parent; 0 of the root.
    pub fn index(&self, number: usize) -> usize
        requires { IsWithin self.now number }
        ensures { result ≡ index (cursor_of self.now number) }
    {
        if number == 0 {
            return 0;
        }
        let siblings = self.child_numbers(self.entry(number).parent as usize);
        number - siblings.start
    }

    /// The numbers of all children.
    pub fn child_numbers(&self, number: usize) -> Range<usize>
        requires { IsWithin self.now number }
        ensures row { StretchShows self.now result.start result.end (paths_below self.now number) }
        ensures bounds { AreChildNumbers self.now number result.start result.end }
    {
        let Some(node) = self.entries[number].node.number() else {
            return 0..0;
        };
        let node = node as usize;
        self.nodes.first_child(node)..self.children_end(node)
    }

    /// The numbers of the siblings behind this one.
    pub fn following_numbers(&self, number: usize) -> Range<usize>
        requires { IsWithin self.now number }
        ensures start { result.start ≡ number + 1 }
        ensures row { StretchShows self.now result.start result.end (paths_behind self.now number) }
    {
        if number == 0 {
            return 1..1;
        }
        let siblings = self.child_numbers(self.entry(number).parent as usize);
        number + 1..siblings.end
    }

    /// The numbers of the siblings before this one.
    pub fn preceding_numbers(&self, number: usize) -> Range<usize>
        requires { IsWithin self.now number }
        ensures end { result.end ≡ number }
        ensures row { StretchShowsBack self.now result.start result.end
            (paths_before self.now number) }
    {
        if number == 0 {
            return 0..0;
        }
        let siblings = self.child_numbers(self.entry(number).parent as usize);
        siblings.start..number
    }

    // Where the children of a node end, by its number among the nodes: where those of the next one
    // begin.
    fn children_end(&self, node: usize) -> usize
        requires { node < length self.now.nodes }
        ensures { IsChildrenEnd self.now node result }
    {
        let count = self.nodes.len();
        if node + 1 == count {
            return self.entries.len();
        }
        self.nodes.first_child(node + 1)
    }

    /// The first of a row.
    pub fn first_in(&self, row: Range<usize>) -> Option<usize>
        requires { IsStretch self.now row.start row.end }
        ensures { Leads self.now result (first_at (row_paths self.now row.start row.end)) }
    {
        if row.start == row.end {
            return None;
        }
        Some(row.start)
    }

    /// The last of a row.
    pub fn last_in(&self, row: Range<usize>) -> Option<usize>
        requires { IsStretch self.now row.start row.end }
        ensures { Leads self.now result
            (first_at (reverse (row_paths self.now row.start row.end))) }
    {
        if row.start == row.end {
            return None;
        }
        Some(row.end - 1)
    }

    /// The first node of a row.
    pub fn first_node_in(&self, row: Range<usize>) -> Option<usize>
        requires { IsStretch self.now row.start row.end }
        ensures { LeadsToNode self.now result
            (first_node_at (root_of self.now) (row_paths self.now row.start row.end)) }
    {
        for number in row.start..row.end {
            if self.is_node(number) {
                return Some(number);
            }
        }
        None
    }

    /// The last node of a row.
    pub fn last_node_in(&self, row: Range<usize>) -> Option<usize>
        requires { IsStretch self.now row.start row.end }
        ensures { LeadsToNode self.now result
            (first_node_at (root_of self.now) (reverse (row_paths self.now row.start row.end))) }
    {
        for number in (row.start..row.end).rev() {
            if self.is_node(number) {
                return Some(number);
            }
        }
        None
    }

    /// The first token at or below an element.
    pub fn first_token(&self, number: usize) -> Option<usize>
        requires { IsWithin self.now number }
        ensures { LeadsToToken self.now result
            (first_leaf_path (root_of self.now) (path_at self.now number)) }
    {
        self.token_from(number, number)
    }

    /// The last token at or below an element.
    pub fn last_token(&self, number: usize) -> Option<usize>
        requires { IsWithin self.now number }
        ensures { LeadsToToken self.now result
            (last_leaf_path (root_of self.now) (path_at self.now number)) }
    {
        self.token_back_from(number, number)
    }

    /// The first token behind an element, those below it too.
    pub fn next_token(&self, number: usize) -> Option<usize>
        requires { IsWithin self.now number }
        ensures { LeadsToToken self.now result
            (next_leaf_path (root_of self.now) (path_at self.now number)) }
    {
        match self.step_on(number, 0) {
            Some(next) => self.token_from(next, 0),
            None => None,
        }
    }

    /// The last token before an element.
    pub fn prev_token(&self, number: usize) -> Option<usize>
        requires { IsWithin self.now number }
        ensures { LeadsToToken self.now result
            (prev_leaf_path (root_of self.now) (path_at self.now number)) }
    {
        match self.skip_back(number, 0) {
            Some(previous) => self.token_back_from(previous, 0),
            None => None,
        }
    }

    // The first token from an element on, inside the element at `top`.
    fn token_from(&self, start: usize, top: usize) -> Option<usize>
        requires { StandsInside self.now top start }
        ensures found { LeadsToToken self.now result (first_token_from self.now top start) }
        ensures inside { IfSome result (IsTokenInside self.now top) }
        ensures left { remaining_leaves self.now top result
            ≡ remaining_leaves self.now top (Some start) }
    {
        let mut number = start;
        while self.is_node(number) {
            match self.step_on(number, top) {
                Some(next) => number = next,
                None => return None,
            }
        }
        Some(number)
    }

    // The last token up to an element's end, inside the element at `top`.
    fn token_back_from(&self, start: usize, top: usize) -> Option<usize>
        requires { StandsInside self.now top start }
        ensures { LeadsToToken self.now result (last_token_to self.now top start) }
    {
        let mut number = start;
        while self.is_node(number) {
            match self.step_back(number, top) {
                Some(previous) => number = previous,
                None => return None,
            }
        }
        Some(number)
    }

    // The next element inside that at `top`: the first child, or else the next element that is not
    // below.
    fn step_on(&self, number: usize, top: usize) -> Option<usize>
        requires { StandsInside self.now top number }
        ensures found { IfSome result (StandsInside self.now top) }
        ensures next { IfSome result (λ n.
            ComesNext (root_of self.now) (path_at self.now number) (path_at self.now n)) }
        ensures end { IfNone result (first_token_past self.now top number ≡ None) }
    {
        match self.first_child_or_token(number) {
            Some(child) => Some(child),
            None => self.skip_on(number, top),
        }
    }

    // The element before this one, inside that at `top`: the last child, or else the element before
    // it that is not above.
    fn step_back(&self, number: usize, top: usize) -> Option<usize>
        requires { StandsInside self.now top number }
        ensures found { IfSome result (StandsInside self.now top) }
        ensures back { IfSome result (λ n.
            ComesBack (root_of self.now) (path_at self.now number) (path_at self.now n)) }
        ensures end { IfNone result (last_token_until self.now top number ≡ None) }
    {
        match self.last_child_or_token(number) {
            Some(child) => Some(child),
            None => self.skip_back(number, top),
        }
    }

    // The next sibling, or else that of the nearest ancestor which has one, inside the element at
    // `top`.
    fn skip_on(&self, number: usize, top: usize) -> Option<usize>
        requires { StandsInside self.now top number }
        ensures found { IfSome result (StandsInside self.now top) }
        ensures next { IfSome result (λ n.
            ComesBehind (root_of self.now) (path_at self.now number) (path_at self.now n)) }
        ensures end { IfNone result (first_token_behind self.now top number ≡ None) }
    {
        let mut current = number;
        while current != top {
            if let Some(sibling) = self.next_sibling_or_token(current) {
                return Some(sibling);
            }
            match self.parent(current) {
                Some(parent) => current = parent,
                None => return None,
            }
        }
        None
    }

    // The sibling before, or else that of the nearest ancestor which has one, inside the element at
    // `top`.
    fn skip_back(&self, number: usize, top: usize) -> Option<usize>
        requires { StandsInside self.now top number }
        ensures found { IfSome result (StandsInside self.now top) }
        ensures back { IfSome result (λ n.
            ComesBefore (root_of self.now) (path_at self.now number) (path_at self.now n)) }
        ensures end { IfNone result (last_token_before self.now top number ≡ None) }
    {
        let mut current = number;
        while current != top {
            if let Some(sibling) = self.prev_sibling_or_token(current) {
                return Some(sibling);
            }
            match self.parent(current) {
                Some(parent) => current = parent,
                None => return None,
            }
        }
        None
    }
}
