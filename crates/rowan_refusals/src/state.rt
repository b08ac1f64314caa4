//! What a case has made so far, and where it stands.

use crate::building::{build, build_on, build_over};
use crate::calls::{Call, script_of, tree_of};
use crate::edits::{Edit, leaf};
use crate::making::{Made, Make};
use crate::moving::{compare, hash_of};
use crate::pointers::{tell_pointer, tell_wrappers};
use crate::searches::{index_at, range, tell_lengths};
use crate::sessions::{Playing, tell_session};
use crate::step::Step;
use crate::texts::Slice;
use crate::traces::{Stride, tell_trace};
use crate::typed::{tell_conversions, tell_moves};
use crate::walks::{tell_clones, tell_typed};
use crate::{refs, typed_refs};
use rowan::ast::AstNode;
use rowan::cursor::{SyntaxElement, SyntaxNode};
use rowan::script::element_at;
use rowan::{
    Fault, GreenNode, GreenToken, NodeCache, NodeOrToken, SyntaxKind, SyntaxText, TextRange,
    TextSize, TypedElementCalls, script,
};
use rowan_moves::{Move, raw};
use rowan_tool::sexp::{Lang, List, Parse, lex, parse, parse_with, reparse_all, reparse_list};
use rowan_transcript::{Shape, Stop, Transcript};
use serde_json::Value;
use std::alloc::Global;

#[derive(Drop)]
pub struct State {
    alloc: Global,
    cache: NodeCache,
    made: Vec<Made>,
    place: Option<SyntaxElement>,
    text: Option<SyntaxText>,
    script: Vec<script::Call>,
    steps: Vec<script::Step>,
    list_edits: Vec<(TextRange, String)>,
    words: Vec<String>,
    output: Vec<u8>,
}

impl State {
    pub fn new(alloc: Global) -> State {
        State {
            alloc,
            cache: NodeCache::new(alloc),
            made: Vec::new(alloc),
            place: None,
            text: None,
            script: Vec::new(alloc),
            steps: Vec::new(alloc),
            list_edits: Vec::new(alloc),
            words: Vec::new(alloc),
            output: Vec::new(alloc),
        }
    }

    /// Takes a step, and says what comes of it.
    pub fn take(&mut self, log: &Transcript<'_>, step: Step) -> Result<(), Stop> {
        match step {
            Step::Phase(phase) => log.phase(phase),
            Step::Build(calls) => build(log, calls),
            Step::BuildOn(calls, others) => build_on(log, calls, others),
            Step::BuildOver(way, calls) => build_over(log, &mut self.cache, way, calls),
            Step::Make(what) => self.ask(log, what),
            Step::Session(playing, calls, count) => self.play(log, playing, calls, count),
            Step::Trace(strides) => self.trace(log, strides),
            Step::Counts => self.tell_counts(log),
            Step::Tree => log.tell("tree", &Shape(self.tree()?)),
            Step::Equal => self.tell_equal(log),
            Step::Alike => self.tell_alike(log),
            Step::Lengths => tell_lengths(log, self.tree()?),
            Step::ChildAt(start, end) => {
                log.tell(
                    "index of child_at_range",
                    &index_at(self.tree()?, start, end),
                )
            }
            Step::Look(way) => self.look(log, way),
            Step::Go(way) => self.go(log, way),
            Step::LookAt(path) => self.look_at(log, path),
            Step::GoTo(path) => self.go_to(log, path),
            Step::GoToRoot(number) => self.go_to_root(log, number),
            Step::Text => self.read(log),
            Step::Slice(slice) => self.cut(log, slice),
            _ => self.tell_step(log, step),
        }
    }

    /// The steps at the current cursor that leave it where it is.
    fn tell_step(&self, log: &Transcript<'_>, step: Step) -> Result<(), Stop> {
        match step {
            Step::List(listing) => listing.tell(log, self.place()?),
            Step::Walk(walk) => walk.tell(log, self.place()?),
            Step::Clones => tell_clones(log, self.node_here()?),
            Step::NotOneList(text) => self.tell_not_one_list(log, text),
            Step::Search(search) => search.tell(log, self.place()?),
            Step::Ask(question) => question.tell(log, self.text()?),
            Step::SameText(number) => self.tell_same_text(log, number),
            Step::Compare(way) => compare(log, self.place()?, &self.target_of(way)?),
            Step::CompareRoot(number) => compare(log, self.place()?, &self.root(number)?),
            _ => self.tell_typed_step(log, step),
        }
    }

    /// Those at the current typed cursor. A step that is in none of the three lists stops the run.
    fn tell_typed_step(&self, log: &Transcript<'_>, step: Step) -> Result<(), Stop> {
        match step {
            Step::Typed => tell_typed(log, self.syntax()?),
            Step::TypedMoves => tell_moves(log, &self.typed_place()?),
            Step::Conversions => tell_conversions(log, self.typed_place()?),
            Step::Pointer(start, end, len) => {
                tell_pointer(
                    log,
                    &self.typed_node()?,
                    range(start, end)?,
                    TextSize::from(len),
                )
            }
            Step::Wrappers => tell_wrappers(log, &self.typed_node()?),
            Step::TypedSearch(search) => search.tell_typed(log, &self.typed_place()?),
            _ => Err(Stop::Refused(Fault::NotFound)),
        }
    }

    /// Makes a value, once more where that is refused for memory, and says what it is.
    fn ask(&mut self, log: &Transcript<'_>, what: Make) -> Result<(), Stop> {
        let mut answer = self.make(what);
        if let Err(Fault::Memory) = answer {
            log.tell_answer(what.name(), answer)?;
            answer = self.make(what);
        }
        log.tell_answer(what.name(), answer)?;
        match self.made.as_slice().last() {
            Some(made) => made.tell(log),
            None => Ok(()),
        }
    }

    /// Makes a value, and keeps it.
    fn make(&mut self, what: Make) -> Result<(), Fault> {
        let made = self.make_value(what)?;
        Ok(self.made.push(made)?)
    }

    fn make_value(&mut self, what: Make) -> Result<Made, Fault> {
        match what {
            Make::ListEdits(edits) => self.set_list_edits(edits),
            Make::Script(calls, count) => self.set_script(calls, count),
            Make::Steps(strides) => self.set_steps(strides),
            Make::Words(words) => self.set_words(words),
            Make::Room(bytes) => self.set_room(bytes),
            Make::Written(text) => self.run_program(text),
            Make::ParsedOver(text) => {
                parse_with(self.alloc, text, &mut self.cache).map(Made::Parse)
            }
            Make::Parsed(text) => parse(self.alloc, text).map(Made::Parse),
            Make::Lexed(text) => Ok(Made::Count(lex(self.alloc, text)?.len())),
            _ => self.green_value(what),
        }
    }

    /// A value of a green tree.
    fn green_value(&self, what: Make) -> Result<Made, Fault> {
        let alloc = self.alloc;
        match what {
            Make::Tree(calls) => tree_of(alloc, calls).map(Made::Tree),
            Make::Token(kind, text) => {
                GreenToken::new(alloc, SyntaxKind(kind), text).map(Made::Token)
            }
            Make::Node(kind) => self.node(kind).map(Made::Tree),
            Make::Edited(edit) => self.edited(edit).map(Made::Edited),
            Make::Replaced => self.replace().map(Made::Edited),
            Make::TypedReplaced => self.replace_typed().map(Made::Edited),
            Make::RefReplaced => self.replace_by_ref().map(Made::Edited),
            Make::TypedRefReplaced => self.replace_by_typed_ref().map(Made::Edited),
            Make::Reparsed(text) => self.reparse(text).map(Made::Edited),
            Make::ReparsedAll(text) => self.reparse_text(text).map(Made::Edited),
            _ => self.cursor_value(what),
        }
    }

    /// A cursor.
    fn cursor_value(&self, what: Make) -> Result<Made, Fault> {
        match what {
            Make::Root => self.new_root().map(Made::Cursor),
            Make::Subtree => self.subtree().map(Made::Cursor),
            Make::RefSubtree => self.ref_subtree().map(Made::Cursor),
            Make::TypedSubtree => self.typed_subtree().map(Made::Syntax),
            Make::TypedRefSubtree => self.typed_ref_subtree().map(Made::Syntax),
            Make::ListSubtree => self.list_subtree().map(Made::Syntax),
            Make::Syntax => self.parse()?.syntax(self.alloc).map(Made::Syntax),
            Make::ParsedRoot => self.parsed_root().map(Made::Syntax),
            _ => self.text_value(what),
        }
    }

    /// A text, or JSON. What is in none of the four lists is refused, and so told as another line.
    fn text_value(&self, what: Make) -> Result<Made, Fault> {
        match what {
            Make::Json => self.json().map(Made::Json),
            Make::Printed => self.syntax()?.debug_tree(self.alloc).map(Made::Text),
            Make::Line => self.line().map(Made::Text),
            Make::JsonText => self.json_text().map(Made::Text),
            Make::Text => self.syntax_text().map(Made::Text),
            Make::Shown => self.tree_text().map(Made::Text),
            Make::Copy => self.text()?.to_text().map(Made::Text),
            Make::RefCopy => self.text()?.as_ref().to_text().map(Made::Text),
            _ => Err(Fault::NotFound),
        }
    }

    fn edited(&self, edit: Edit) -> Result<GreenNode, Fault> {
        edit.make(self.alloc, self.tree()?, self.token()?)
    }

    fn new_root(&self) -> Result<SyntaxNode, Fault> {
        SyntaxNode::new_root(self.alloc, self.tree()?.clone()?)
    }

    fn ref_subtree(&self) -> Result<SyntaxNode, Fault> {
        self.node_here()?.as_ref().clone_subtree()
    }

    fn typed_subtree(&self) -> Result<rowan::SyntaxNode<Lang>, Fault> {
        let node = self.typed_node()?;
        node.clone_subtree()
    }

    fn typed_ref_subtree(&self) -> Result<rowan::SyntaxNode<Lang>, Fault> {
        let node = self.typed_node()?;
        node.as_ref().clone_subtree()
    }

    fn syntax_text(&self) -> Result<String, Fault> {
        Ok(self.syntax()?.to_string(self.alloc)?)
    }

    fn tree_text(&self) -> Result<String, Fault> {
        Ok(self.tree()?.to_string(self.alloc)?)
    }

    /// A node over all tokens.
    fn node(&self, kind: u16) -> Result<GreenNode, Fault> {
        let mut children = Vec::new(self.alloc);
        for made in self.made.as_slice() {
            if let Made::Token(token) = made {
                children.push(leaf(token)?)?;
            }
        }
        GreenNode::new(self.alloc, SyntaxKind(kind), children)
    }

    /// The root with the last tree or token in place of the node or the token where the case
    /// stands.
    fn replace(&self) -> Result<GreenNode, Fault> {
        match self.place()? {
            NodeOrToken::Node(node) => node.replace_with(self.tree()?.clone()?),
            NodeOrToken::Token(token) => token.replace_with(self.token()?.clone()?),
        }
    }

    fn replace_typed(&self) -> Result<GreenNode, Fault> {
        match self.typed_place()? {
            NodeOrToken::Node(node) => node.replace_with(self.tree()?.clone()?),
            NodeOrToken::Token(token) => token.replace_with(self.token()?.clone()?),
        }
    }

    fn replace_by_ref(&self) -> Result<GreenNode, Fault> {
        match refs::borrowed(self.place()?) {
            NodeOrToken::Node(node) => node.replace_with(self.tree()?.clone()?),
            NodeOrToken::Token(token) => token.replace_with(self.token()?.clone()?),
        }
    }

    fn replace_by_typed_ref(&self) -> Result<GreenNode, Fault> {
        match typed_refs::borrowed(&self.typed_place()?) {
            NodeOrToken::Node(node) => node.replace_with(self.tree()?.clone()?),
            NodeOrToken::Token(token) => token.replace_with(self.token()?.clone()?),
        }
    }

    /// A copy of what is below the place.
    fn subtree(&self) -> Result<SyntaxNode, Fault> {
        self.node_here()?.clone_subtree()
    }

    /// The list where the case stands.
    fn list(&self) -> Result<List, Fault> {
        List::cast(self.typed_node()?).ok_or(Fault::NotFound)
    }

    /// The root with a text in place of that list.
    fn reparse(&self, text: &str) -> Result<GreenNode, Fault> {
        reparse_list(self.alloc, &self.list()?, text)
    }

    fn reparse_text(&self, text: &str) -> Result<GreenNode, Fault> {
        reparse_all(self.alloc, text, self.list_edits.as_slice())
    }

    /// A copy of what is below the place, by a wrapper.
    fn list_subtree(&self) -> Result<rowan::SyntaxNode<Lang>, Fault> {
        let copy = self.list()?.clone_subtree()?;
        Ok(copy.syntax().clone()?)
    }

    /// The line of the typed element where the case stands.
    fn line(&self) -> Result<String, Fault> {
        match self.typed_place()? {
            NodeOrToken::Node(node) => node.debug_line(self.alloc),
            NodeOrToken::Token(token) => token.debug_line(self.alloc),
        }
    }

    /// Its JSON.
    fn json(&self) -> Result<Value, Fault> {
        match self.typed_place()? {
            NodeOrToken::Node(node) => node.to_json(self.alloc),
            NodeOrToken::Token(token) => token.to_json(self.alloc),
        }
    }

    /// The text of its JSON.
    fn json_text(&self) -> Result<String, Fault> {
        match self.typed_place()? {
            NodeOrToken::Node(node) => node.to_json_string(self.alloc),
            NodeOrToken::Token(token) => token.to_json_string(self.alloc),
        }
    }

    fn parsed_root(&self) -> Result<rowan::SyntaxNode<Lang>, Fault> {
        let root = self.parse()?.root(self.alloc)?;
        Ok(root.syntax().clone()?)
    }

    fn set_script(&mut self, calls: &[Call], count: usize) -> Result<Made, Fault> {
        let calls = calls.get(..count).ok_or(Fault::NotFound)?;
        self.script = script_of(self.alloc, calls)?;
        Ok(Made::Count(count))
    }

    fn set_steps(&mut self, strides: &[Stride]) -> Result<Made, Fault> {
        let mut steps = Vec::new(self.alloc);
        for stride in strides {
            steps.push(stride.as_step(self.alloc)?)?;
        }
        self.steps = steps;
        Ok(Made::Count(strides.len()))
    }

    fn set_list_edits(&mut self, edits: &[(u32, u32, &str)]) -> Result<Made, Fault> {
        let mut made = Vec::new(self.alloc);
        for (start, end, text) in edits {
            made.push((range(*start, *end)?, String::from_str(self.alloc, *text)?))?;
        }
        self.list_edits = made;
        Ok(Made::Count(edits.len()))
    }

    fn set_words(&mut self, words: &[&str]) -> Result<Made, Fault> {
        let mut made = Vec::new(self.alloc);
        for word in words {
            made.push(String::from_str(self.alloc, *word)?)?;
        }
        self.words = made;
        Ok(Made::Count(words.len()))
    }

    fn set_room(&mut self, bytes: usize) -> Result<Made, Fault> {
        self.output = Vec::with_capacity(self.alloc, bytes)?;
        Ok(Made::Count(bytes))
    }

    /// Runs the program, and counts the bytes that it wrote.
    fn run_program(&mut self, text: &str) -> Result<Made, Fault> {
        self.output.clear();
        let mut input = text.as_bytes();
        match rowan_program::run(
            self.alloc,
            self.words.as_slice(),
            &mut input,
            &mut self.output,
        ) {
            Ok(()) => Ok(Made::Count(self.output.len())),
            Err(rowan_program::Stop::NoMemory) => Err(Fault::Memory),
            Err(_) => Err(Fault::NotFound),
        }
    }

    /// Makes the first calls and two steps behind them, and says what comes of it.
    fn play(
        &mut self,
        log: &Transcript<'_>,
        playing: Playing,
        calls: &'static [Call],
        count: usize,
    ) -> Result<(), Stop> {
        self.ask(log, Make::Script(calls, count))?;
        let calls = calls.get(..count).ok_or(Fault::NotFound)?;
        tell_session(log, playing, &mut self.cache, calls, self.script.as_slice())
    }

    /// Makes the steps from the place, and says what they report.
    fn trace(&mut self, log: &Transcript<'_>, strides: &'static [Stride]) -> Result<(), Stop> {
        self.ask(log, Make::Steps(strides))?;
        let start = self.node_here()?.clone()?;
        tell_trace(log, &start, &mut self.steps)
    }

    /// Says where a move leads.
    fn look(&self, log: &Transcript<'_>, way: Move) -> Result<(), Stop> {
        log.tell(way.name(), &raw::target(way, self.place()?))?;
        refs::tell_move(log, way, self.place()?)
    }

    /// Says what is at a path of indexes of children.
    fn look_at(&self, log: &Transcript<'_>, path: &[usize]) -> Result<(), Stop> {
        let node = self.node_here()?;
        log.tell("element_at", &element_at(node, path))?;
        refs::tell_element_at(log, node.as_ref(), path)
    }

    /// Goes there.
    fn go_to(&mut self, log: &Transcript<'_>, path: &[usize]) -> Result<(), Stop> {
        let found = element_at(self.node_here()?, path)?.ok_or(Fault::NotFound)?;
        log.tell("element_at", &found)?;
        self.place = Some(found);
        Ok(())
    }

    /// Goes where a move leads.
    fn go(&mut self, log: &Transcript<'_>, way: Move) -> Result<(), Stop> {
        let found = self.target_of(way)?;
        log.tell(way.name(), &found)?;
        self.place = Some(found);
        Ok(())
    }

    fn go_to_root(&mut self, log: &Transcript<'_>, number: usize) -> Result<(), Stop> {
        let root = self.root(number)?;
        log.tell("root", &root)?;
        self.place = Some(root);
        Ok(())
    }

    /// Reads the text of the place.
    fn read(&mut self, log: &Transcript<'_>) -> Result<(), Stop> {
        let node = self.node_here()?;
        let text = node.text()?;
        log.tell("text", &text)?;
        log.tell("by ref", &node.as_ref().text())?;
        self.text = Some(text);
        Ok(())
    }

    /// Reads a slice of the text from now on.
    fn cut(&mut self, log: &Transcript<'_>, slice: Slice) -> Result<(), Stop> {
        let part = slice.cut(self.text()?)?;
        log.tell("slice", &part)?;
        log.tell("by ref", &slice.cut_ref(&self.text()?.as_ref()))?;
        self.text = Some(part);
        Ok(())
    }

    /// Says whether the text is that of the cursor of that number.
    fn tell_same_text(&self, log: &Transcript<'_>, number: usize) -> Result<(), Stop> {
        let NodeOrToken::Node(root) = self.root(number)? else {
            return Err(Stop::Refused(Fault::NotFound));
        };
        log.tell("same text", &(*self.text()? == root.text()?))?;
        log.tell("by ref", &(self.text()?.as_ref() == root.as_ref().text()))
    }

    /// Where a move from the place leads.
    fn target_of(&self, way: Move) -> Result<SyntaxElement, Fault> {
        raw::target(way, self.place()?)?.ok_or(Fault::NotFound)
    }

    /// The cursor of that number of all that were made.
    fn root(&self, number: usize) -> Result<SyntaxElement, Fault> {
        let mut cursors = 0usize;
        for made in self.made.as_slice() {
            if let Made::Cursor(cursor) = made {
                if cursors == number {
                    return Ok(NodeOrToken::Node(cursor.clone()?));
                }
                cursors = cursors.saturating_add(1);
            }
        }
        Err(Fault::NotFound)
    }

    /// Says why a text cannot take the place of the list where the case stands.
    fn tell_not_one_list(&self, log: &Transcript<'_>, text: &str) -> Result<(), Stop> {
        log.tell("reparse_list", &self.reparse(text).err())
    }

    fn tell_counts(&self, log: &Transcript<'_>) -> Result<(), Stop> {
        log.tell(
            "counts",
            &(self.cache.token_count(), self.cache.node_count()),
        )
    }

    /// Says whether the last two trees that were made are equal.
    fn tell_equal(&self, log: &Transcript<'_>) -> Result<(), Stop> {
        let (tree, other) = self.last_two()?;
        log.tell("equal", &(tree == other))
    }

    /// Says whether the last two trees that were made are equal, and whether they are hashed
    /// equally, where they may be so deep that both are done by a list.
    fn tell_alike(&self, log: &Transcript<'_>) -> Result<(), Stop> {
        let (tree, other) = self.last_two()?;
        log.tell("equal, with a list", &(tree == other))?;
        log.tell(
            "hashed equally, with a list",
            &(hash_of(tree) == hash_of(other)),
        )
    }

    /// The last two trees that were made, edited ones counted.
    fn last_two(&self) -> Result<(&GreenNode, &GreenNode), Fault> {
        let mut last = None;
        for made in self.made.as_slice().iter().rev() {
            let Some(tree) = made.green() else {
                continue;
            };
            match last {
                None => last = Some(tree),
                Some(other) => return Ok((tree, other)),
            }
        }
        Err(Fault::NotFound)
    }

    fn place(&self) -> Result<&SyntaxElement, Fault> {
        self.place.as_ref().ok_or(Fault::NotFound)
    }

    /// The place, with the kinds of s-expressions.
    fn typed_place(&self) -> Result<rowan::SyntaxElement<Lang>, Fault> {
        Ok(rowan::SyntaxElement::from_raw(self.place()?.clone()?))
    }

    fn typed_node(&self) -> Result<rowan::SyntaxNode<Lang>, Fault> {
        Ok(rowan::SyntaxNode::from(self.node_here()?.clone()?))
    }

    /// The node where the case stands.
    fn node_here(&self) -> Result<&SyntaxNode, Fault> {
        match &self.place {
            Some(NodeOrToken::Node(node)) => Ok(node),
            _ => Err(Fault::NotFound),
        }
    }

    fn text(&self) -> Result<&SyntaxText, Fault> {
        self.text.as_ref().ok_or(Fault::NotFound)
    }

    fn tree(&self) -> Result<&GreenNode, Fault> {
        for made in self.made.as_slice().iter().rev() {
            match made {
                Made::Tree(tree) => return Ok(tree),
                Made::Parse(parse) => return Ok(parse.green()),
                _ => (),
            }
        }
        Err(Fault::NotFound)
    }

    fn token(&self) -> Result<&GreenToken, Fault> {
        for made in self.made.as_slice().iter().rev() {
            if let Made::Token(token) = made {
                return Ok(token);
            }
        }
        Err(Fault::NotFound)
    }

    fn parse(&self) -> Result<&Parse, Fault> {
        for made in self.made.as_slice().iter().rev() {
            if let Made::Parse(parse) = made {
                return Ok(parse);
            }
        }
        Err(Fault::NotFound)
    }

    fn syntax(&self) -> Result<&rowan::SyntaxNode<Lang>, Fault> {
        for made in self.made.as_slice().iter().rev() {
            if let Made::Syntax(root) = made {
                return Ok(root);
            }
        }
        Err(Fault::NotFound)
    }
}
