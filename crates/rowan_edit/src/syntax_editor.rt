//! An editor of the tree of a language.
ghost use Rattle.std.specs.Prelude.{◌≡◌, ◌≢◌, ℕ, ◌<◌, ◌+◌, true, false, [], Some, None, length};
ghost use Rattle.std.specs.Prelude.{IfOk, IfErr, OnOk, OnErr, Err};
ghost use Rattle.std.specs.Fn.{FnOnceReturnsAt};
ghost use Rattle.rowan_green.specs.declared.utility_types.NodeOrToken.TheVariants.{Node, Token};
ghost use Rattle.rowan_green.specs.Fits.{FitsNode, WhyNoNode, byte_limit};
ghost use Rattle.rowan_terms.specs.Path.{Path};
ghost use Rattle.rowan_green.specs.Term.{token_of, node_of};
ghost use Rattle.rowan_green.specs.Word.{WhyNoToken};
ghost use Rattle.rowan_table.specs.Cursor.{index, text_at};
ghost use Rattle.rowan_table.specs.Moves.{place_of, parent};
ghost use Rattle.rowan_api.specs.Refs.{node_place, token_place, element_place};
ghost use Rattle.rowan_changes.specs.declared.edit_error.EditError.TheVariants.{Failed};
ghost use Rattle.rowan_changes.specs.Changes.{changes_of};
ghost use Rattle.rowan_edit.specs.ArrangedCursors.{WhyNotTaken, WhyNotTakenAt, WhyNotReplaced};
ghost use Rattle.rowan_edit.specs.ArrangedLimits.{WhyNotMade};
ghost use Rattle.rowan_edit.specs.ArrangedTree.{IsPlanned};
ghost use Rattle.rowan_edit.specs.Arrangements.{with_edit, with_arrangement, plain_edits};
ghost use Rattle.rowan_edit.specs.Arrangements.{WhyRefused, WhyNotArranged};
ghost use Rattle.rowan_edit.specs.Cursors.{AtChild};
ghost use Rattle.rowan_edit.specs.Edges.{at_edge, range_edit, IsAtEdge};
ghost use Rattle.rowan_changes.specs.Edit.{Edit, edited};
ghost use Rattle.rowan_changes.specs.EditErrors.{IsRefused, IsRefusedFor, IsFailure};
ghost use Rattle.rowan_edit.specs.Elements.{with_text, with_kind};
ghost use Rattle.rowan_edit.specs.FromText.{IsFirstOfText, WhyNoneOfText};
ghost use Rattle.rowan_changes.specs.TextEdits.{IsEdited};
ghost use Rattle.rowan_edit.specs.Positions.{in_place, in_gap, AtGap, cursor_of, WhyNotInserted};

use crate::arranging_editor::ArrangingEditor;
use crate::as_element::AsElement;
use crate::into_elements::IntoElements;
use crate::make::Make;
use crate::pieces::Piece;
use crate::position::Position;
use rowan::{Language, SyntaxElementRef, SyntaxNodeRef, SyntaxTokenRef, TypedElementRefCalls};
use rowan_changes::changes::Edited;
use rowan_changes::edit_error::EditError;
use rowan_changes::path_to;
use rowan_changes::refusal::Refusal;
use rowan_green::fault::Fault;
use rowan_green::green::{GreenElement, GreenNode};
use rowan_green::utility_types::NodeOrToken;
use std::alloc::{AllocError, Global};
use std::marker::Model;
use std::ops::Range;

/// Edits of one tree of a language, which are made together, in one pass. Elements are named by
/// cursors of the tree as it was given, whatever else is edited. No edit makes an owned cursor.
#[derive(Drop)]
pub struct SyntaxEditor<L> {
    alloc: Global,
    edits: ArrangingEditor,
    make: Make<L>,
}

impl<L> Model for SyntaxEditor<L> {
    ghost use Rattle.rowan_edit.specs.Arrangements.{ArrangedPlan};
    ghost use Rattle.rowan_edit.specs.ArrangedCode.{coded_arranged_plan};

    ghost Value = { ArrangedPlan };

    ghost coded = { coded_arranged_plan };

    ghost view = { λ e. e.edits };
}

/// What an edit at an element takes away: nothing, before or behind it, or all of it.
#[derive(Clone, Copy)]
enum Edge {
    Start,
    Whole,
    End,
}

/// Children of a node, from one index to another.
#[derive_where(Clone, Copy)]
struct Children<'tree, L> {
    parent: SyntaxNodeRef<'tree, L>,
    start: usize,
    end: usize,
}

impl<L: Language> SyntaxEditor<L> {
    /// An editor of the whole tree that a node is in, which has no edits yet.
    ///
    /// Errors: `Failed(Memory)` if an allocation failed.
    pub fn new(alloc: Global, node: SyntaxNodeRef<'_, L>) -> Result<SyntaxEditor<L>, EditError>
        ensures ok { IfOk result (λ e.
            e ≡ record { root = (node_place node.entry).root; edits = []; arrangements = [] }) }
        ensures err { IfErr result (IsFailure (λ f. f ≡ Fault.Memory)) }
    {
        Ok(SyntaxEditor {
            alloc,
            edits: ArrangingEditor::new(alloc, node.tree_top().green())?,
            make: Make::new(alloc),
        })
    }

    /// Puts elements in place of the children of a node from one index to another, the one at the
    /// end not included.
    ///
    /// Errors: `Refused` with `OtherTree` if the node is in another tree, and else as that of
    /// `GreenEditor::splice`; `Failed(Memory)` if an allocation failed.
    pub fn splice<N: IntoElements>(
        &mut self,
        parent: SyntaxNodeRef<'_, L>,
        children: Range<usize>,
        new: N,
    ) -> Result<(), EditError>
        ensures ok { let c = node_place parent.entry in
            let edit : Edit = record {
              parent = c.path;
              start = children.start;
              end = children.end;
              new = N.terms new;
            } in OnOk result (self.new ≡ with_edit self.old edit) }
        ensures tree { OnOk result ((node_place parent.entry).root ≡ self.old.root) }
        ensures err { let c = node_place parent.entry in
            let edit : Edit = record {
              parent = c.path;
              start = children.start;
              end = children.end;
              new = N.terms new;
            } in IfErr result (IsRefusedFor (WhyNotTaken self.old c edit)) }
        ensures unchanged { OnErr result (self.new ≡ self.old) }
    {
        let new = new.into_elements(self.alloc)?;
        if !self.is_of_tree(NodeOrToken::Node(parent)) {
            return Err(EditError::Refused(Refusal::OtherTree));
        }
        Ok(self.splice_in(parent, children, new)?)
    }

    /// Puts elements in place of one.
    ///
    /// Errors: `Refused` with `Root` of the root, and else as `splice`.
    pub fn replace<'tree, E: AsElement<'tree, L>, N: IntoElements>(
        &mut self,
        element: E,
        new: N,
    ) -> Result<(), EditError>
        ensures ok { OnOk result (AtChild (place_of (E.element element)) (λ p i.
            self.new ≡ with_edit self.old (in_place (N.terms new) p i))) }
        ensures tree { OnOk result ((place_of (E.element element)).root ≡ self.old.root) }
        ensures err { IfErr result (IsRefusedFor (WhyNotTakenAt self.old
            (place_of (E.element element)) (in_place (N.terms new)))) }
        ensures unchanged { OnErr result (self.new ≡ self.old) }
    {
        self.edit_at(element, Edge::Whole, new)
    }

    /// Takes an element away. Errors: as `replace`.
    pub fn delete<'tree, E: AsElement<'tree, L>>(&mut self, element: E) -> Result<(), EditError>
        ensures ok { OnOk result (AtChild (place_of (E.element element)) (λ p i.
            self.new ≡ with_edit self.old (in_place [] p i))) }
        ensures tree { OnOk result ((place_of (E.element element)).root ≡ self.old.root) }
        ensures err { IfErr result (IsRefusedFor (WhyNotTakenAt self.old
            (place_of (E.element element)) (in_place []))) }
        ensures unchanged { OnErr result (self.new ≡ self.old) }
    {
        self.edit_at(element, Edge::Whole, ())
    }

    /// Puts elements at a position, behind those that were put there earlier.
    ///
    /// Errors: `Refused` with `Root` beside the root, and else as `splice`.
    pub fn insert<N: IntoElements>(
        &mut self,
        position: Position<'_, L>,
        new: N,
    ) -> Result<(), EditError>
        ensures ok { OnOk result (AtGap position.entry (λ p i.
            self.new ≡ with_edit self.old (in_gap (N.terms new) p i))) }
        ensures tree { OnOk result ((cursor_of position.entry).root ≡ self.old.root) }
        ensures err { IfErr result
            (IsRefusedFor (WhyNotInserted self.old position.entry (N.terms new))) }
        ensures unchanged { OnErr result (self.new ≡ self.old) }
    {
        match position {
            Position::BeforeElement(element) => self.edit_at(element, Edge::Start, new),
            Position::AfterElement(element) => self.edit_at(element, Edge::End, new),
            Position::FirstChild(node) => self.splice(node, 0..0, new),
            Position::LastChild(node) => {
                let count = node.green().children().len();
                self.splice(node, count..count, new)
            }
        }
    }

    /// Puts a token of the same kind and of another text in place of one.
    ///
    /// Errors: `Failed(TextTooLong)` past 4,294,967,295 bytes; else as `replace`.
    pub fn set_text(&mut self, token: SyntaxTokenRef<'_, L>, text: &str) -> Result<(), EditError>
        ensures ok { let c = token_place token.entry in OnOk result (AtChild c (λ p i.
            self.new ≡ with_edit self.old (in_place (with_text c text.now) p i))) }
        ensures tree { OnOk result ((token_place token.entry).root ≡ self.old.root) }
        ensures err { let c = token_place token.entry in IfErr result (IsRefused
            (WhyNotTakenAt self.old c (in_place (with_text c text.now))) (WhyNoToken text.now)) }
        ensures unchanged { OnErr result (self.new ≡ self.old) }
    {
        let new = self.make.raw_token(token.green().kind(), text)?;
        self.replace(token, new)
    }

    /// Puts a token of the same text and of another kind in place of one. Errors: as `replace`.
    pub fn set_kind(&mut self, token: SyntaxTokenRef<'_, L>, kind: L::Kind) -> Result<(), EditError>
        ensures ok { let c = token_place token.entry in OnOk result (AtChild c (λ p i.
            self.new ≡ with_edit self.old (in_place (with_kind c (L.code kind)) p i))) }
        ensures tree { OnOk result ((token_place token.entry).root ≡ self.old.root) }
        ensures err { let c = token_place token.entry in IfErr result (IsRefused
            (WhyNotTakenAt self.old c (in_place (with_kind c (L.code kind))))
            (WhyNoToken (text_at c))) }
        ensures unchanged { OnErr result (self.new ≡ self.old) }
    {
        let new = self.make.token(kind, token.green().text())?;
        self.replace(token, new)
    }

    /// Gives a node other children, in the order of the pieces: new elements, and children that it
    /// has, with all edits inside of them. A child that no piece names is taken away, with the edits
    /// inside of it, and one that two pieces name stands there twice. The edits inside of a child
    /// may come before this call or after it.
    ///
    /// Errors: `Refused` with `OtherTree` if the node is in another tree, and else with `NotFound`
    /// if it has no child at an index, and with `Conflict` if its children are replaced already, if
    /// an edit puts elements between its own children or takes one of them away, or if one takes
    /// away the node or something around it; `Memory` if an allocation failed.
    pub fn replace_children(
        &mut self,
        parent: SyntaxNodeRef<'_, L>,
        pieces: Vec<Piece>,
    ) -> Result<(), EditError>
        ensures ok { OnOk result (self.new ≡ with_arrangement self.old
            (record { path = (node_place parent.entry).path; pieces = pieces.items })) }
        ensures tree { OnOk result ((node_place parent.entry).root ≡ self.old.root) }
        ensures err { let c = node_place parent.entry in IfErr result (IsRefusedFor
            (WhyNotReplaced self.old c (record { path = c.path; pieces = pieces.items }))) }
        ensures unchanged { OnErr result (self.new ≡ self.old) }
    {
        if !self.is_of_tree(NodeOrToken::Node(parent)) {
            return Err(EditError::Refused(Refusal::OtherTree));
        }
        Ok(self.arrange(parent, pieces)?)
    }

    /// The tree with all edits made, and the change that each of them makes in the text. Of a node
    /// whose children were replaced it is one change, of the range of all its children.
    ///
    /// Errors: `Failed` with `TextTooLong` or `TooManyChildren` where a node of that tree would
    /// pass a limit, or a node whose children are replaced, once the edits inside of it are made
    /// and before its children are replaced; with `Memory` if an allocation failed.
    pub fn finish(self) -> Result<Edited, EditError>
        ensures green { IfOk result (λ e.
            Node e.green ≡ edited (Node self.root) (plain_edits self)) }
        ensures changes { IfOk result (λ e.
            e.changes ≡ changes_of (Node self.root) (plain_edits self)) }
        ensures whole { IfOk result (IsEdited self.root (plain_edits self)) }
        ensures planned { OnOk result (IsPlanned self) }
        ensures fits { IfOk result (λ e. FitsNode e.green) }
        ensures err { IfErr result (IsFailure (WhyNotMade self)) }
    {
        Ok(self.edits.finish()?)
    }

    /// Where new lists and texts get their memory.
    pub fn allocator(&self) -> Global {
        self.alloc
    }

    // Puts elements at an edge of an element, or in its place.
    fn edit_at<'tree, E: AsElement<'tree, L>, N: IntoElements>(
        &mut self,
        element: E,
        edge: Edge,
        new: N,
    ) -> Result<(), EditError>
        ensures ok { OnOk result (AtChild (place_of (E.element element)) (λ p i.
            self.new ≡ with_edit self.old (at_edge edge (N.terms new) p i))) }
        ensures tree { OnOk result ((place_of (E.element element)).root ≡ self.old.root) }
        ensures err { IfErr result (IsRefusedFor (WhyNotTakenAt self.old
            (place_of (E.element element)) (at_edge edge (N.terms new)))) }
        ensures unchanged { OnErr result (self.new ≡ self.old) }
    {
        let element = element.as_element();
        let new = new.into_elements(self.alloc)?;
        Ok(self.edit_element(element, edge, new)?)
    }

    fn edit_element(
        &mut self,
        element: SyntaxElementRef<'_, L>,
        edge: Edge,
        new: Vec<GreenElement>,
    ) -> Result<(), Refusal>
        ensures ok { OnOk result (AtChild (place_of (element_place element.entry)) (λ p i.
            self.new ≡ with_edit self.old (at_edge edge new.items p i))) }
        ensures tree { OnOk result ((place_of (element_place element.entry)).root
            ≡ self.old.root) }
        ensures err { IfErr result (WhyNotTakenAt self.old
            (place_of (element_place element.entry)) (at_edge edge new.items)) }
        ensures unchanged { OnErr result (self.new ≡ self.old) }
    {
        let children = self.children_at(element, edge)?;
        let range = children.start..children.end;
        self.splice_in(children.parent, range, new)
    }

    // Puts elements in place of children of a node of this tree.
    fn splice_in(
        &mut self,
        parent: SyntaxNodeRef<'_, L>,
        children: Range<usize>,
        new: Vec<GreenElement>,
    ) -> Result<(), Refusal>
        ensures ok { OnOk result (self.new ≡ with_edit self.old
            (range_edit (node_place parent.entry).path new.items children.start children.end)) }
        ensures err { IfErr result (WhyRefused self.old
            (range_edit (node_place parent.entry).path new.items children.start children.end)) }
        ensures unchanged { OnErr result (self.new ≡ self.old) }
    {
        let path = path_to(self.alloc, parent)?;
        self.edits.splice(&path, children, new)
    }

    // Gives a node of this tree other children.
    fn arrange(&mut self, parent: SyntaxNodeRef<'_, L>, pieces: Vec<Piece>) -> Result<(), Refusal>
        ensures ok { OnOk result (self.new ≡ with_arrangement self.old
            (record { path = (node_place parent.entry).path; pieces = pieces.items })) }
        ensures err { IfErr result (WhyNotArranged self.old
            (record { path = (node_place parent.entry).path; pieces = pieces.items })) }
        ensures unchanged { OnErr result (self.new ≡ self.old) }
    {
        let path = path_to(self.alloc, parent)?;
        self.edits.replace_children(path, pieces)
    }

    // Whether an element is one of this tree.
    fn is_of_tree(&self, element: SyntaxElementRef<'_, L>) -> bool
        ensures same { result ≡ true
            → (place_of (element_place element.entry)).root ≡ self.now.root }
        ensures other { result ≡ false
            → (place_of (element_place element.entry)).root ≢ self.now.root }
    {
        self.edits.has_root(element.tree_top().green())
    }

    // The children that an edit at an element takes away.
    fn children_at<'tree>(
        &self,
        element: SyntaxElementRef<'tree, L>,
        edge: Edge,
    ) -> Result<Children<'tree, L>, Refusal>
        ensures tree { OnOk result ((place_of (element_place element.entry)).root
            ≡ self.now.root) }
        ensures parent { IfOk result (λ c.
            parent (place_of (element_place element.entry)) ≡ Some (node_place c.parent)) }
        ensures range { IfOk result (λ c. IsAtEdge edge
            (index (place_of (element_place element.entry))) c.start c.end) }
        ensures err { (edit : Path → ℕ → Edit) → IfErr result
            (WhyNotTakenAt self.now (place_of (element_place element.entry)) edit) }
    {
        if !self.is_of_tree(element) {
            return Err(Refusal::OtherTree);
        }
        let Some(parent) = element.parent() else {
            return Err(Refusal::Root);
        };
        let index = element.index();
        // No node has so many children that there is no next index.
        let Some(next) = index.checked_add(1) else {
            return Err(Refusal::Memory);
        };
        let (start, end) = match edge {
            Edge::Start => (index, index),
            Edge::Whole => (index, next),
            Edge::End => (next, next),
        };
        Ok(Children { parent, start, end })
    }
}

/// New elements, by the editor's own `Make`.
impl<L: Language> SyntaxEditor<L> {
    /// The token of a kind and a text. Errors: as `Make::token`.
    pub fn token(&mut self, kind: L::Kind, text: &str) -> Result<GreenElement, EditError>
        ensures ok { IfOk result (λ e. e ≡ Token (token_of (L.code kind) text.now)) }
        ensures err { IfErr result (IsFailure (WhyNoToken text.now)) }
        ensures too_long { byte_limit < length text.now → result ≡ Err (Failed Fault.TextTooLong) }
        ensures plan { self.new ≡ self.old }
    {
        self.make.token(kind, text)
    }

    /// The node of a kind and these children. Errors: as `Make::node`.
    pub fn node(
        &self,
        kind: L::Kind,
        children: Vec<GreenElement>,
    ) -> Result<GreenElement, EditError>
        ensures ok { IfOk result (λ e. e ≡ Node (node_of (L.code kind) children.items)) }
        ensures err { IfErr result (IsFailure (WhyNoNode children.items)) }
    {
        self.make.node(kind, children)
    }

    /// The first node whose kind is wanted in what a parser makes of a text. Errors: as
    /// `Make::from_text`.
    pub fn from_text<P: FnOnce(&str) -> Result<(GreenNode, usize), Fault>, W: Fn(L::Kind) -> bool>(
        &self,
        text: &str,
        parse: P,
        wanted: W,
    ) -> Result<GreenElement, EditError>
        requires parse { P.IsAlwaysCallable parse }
        requires wanted { W.IsAlwaysCallable wanted }
        ensures ok { IfOk result (IsFirstOfText L.meaning (W.post wanted)
            (FnOnceReturnsAt P.FnOnce parse text.now)) }
        ensures err { IfErr result (WhyNoneOfText L.meaning (W.post wanted)
            (FnOnceReturnsAt P.FnOnce parse text.now)) }
    {
        self.make.from_text(text, parse, wanted)
    }
}
