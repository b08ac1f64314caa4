//! Pointers to nodes.
ghost use Rattle.std.specs.Prelude.{◌≡◌, ◌≢◌, ◌≤◌, IfOk, IfErr, true, Some, None};
ghost use Rattle.std.specs.Option.{option_map};
ghost use Rattle.rowan_green.specs.Steps.{one_more};
ghost use Rattle.rowan_table.specs.Moves.{is_node_at};
ghost use Rattle.rowan_api.specs.Refs.{node_place};
ghost use Rattle.rowan.specs.Pointer.{pointer_to, means_kind, is_meant, carried};
ghost use Rattle.rowan.specs.Pointer.{Resolves, CountsResolving};

use crate::api::{Language, SyntaxNode, SyntaxNodeRef};
use crate::fault::Fault;
use crate::steps::Steps;
use crate::text::{TextRange, TextSize};
use crate::utility_types::NodeOrToken;
use std::marker::{Model, PhantomData};

/// A pointer to a node: its kind, and where its text lies in the text of the root, in bytes. It is
/// small, and keeps no tree.
#[derive_where(Clone, Copy, PartialEq, Eq, Hash, Debug; K)]
pub struct SyntaxNodePtr<L, K = <L as Language>::Kind> {
    kind: K,
    range: TextRange,
    language: PhantomData<L>,
}

impl<L, K> Model for SyntaxNodePtr<L, K> {
    ghost use Rattle.rowan.specs.Pointer.{Pointer};

    ghost Value = { Pointer K };

    ghost view = { λ p. record { kind = p.kind; range = p.range } };

    ghost inverse = { λ p. record { kind = p.kind; range = p.range; language = record {} } };
}

impl<L: Language> SyntaxNodePtr<L> {
    /// The pointer to a node.
    pub fn new(node: &SyntaxNode<L>) -> SyntaxNodePtr<L>
        ensures { pointer_to L.meaning node.now ≡ Some result }
    {
        SyntaxNodePtr::from_ref(node.as_ref())
    }

    /// The pointer to a borrowed node.
    pub fn from_ref(node: SyntaxNodeRef<'_, L>) -> SyntaxNodePtr<L>
        ensures { pointer_to L.meaning (node_place node.entry) ≡ Some result }
    {
        SyntaxNodePtr {
            kind: node.kind(),
            range: node.text_range(),
            language: PhantomData,
        }
    }

    /// The kind of the node.
    pub fn kind(&self) -> L::Kind
        ensures { result ≡ self.now.kind }
    {
        self.kind
    }

    /// Where the node's text lies in the text of the root, in bytes.
    pub fn text_range(&self) -> TextRange
        ensures { result ≡ self.now.range }
    {
        self.range
    }

    /// The node to which the pointer leads in a tree: of the root, its child at the range, that
    /// one's child at the range, and so on, the first node that has this kind and this range.
    /// `None` where there is none, and where `root` has a parent.
    ///
    /// Of nodes with text and with the same range it is the outermost one of the kind. A pointer
    /// without text may lead to another node than it was made of, or to none. Refused with `Memory`
    /// alone.
    pub fn try_to_node(&self, root: &SyntaxNode<L>) -> Result<Option<SyntaxNode<L>>, Fault>
        ensures ok { let means = means_kind L.meaning L.Kind.eq self.now.kind in
            IfOk result (Resolves means self.now.range root.now) }
        ensures err { IfErr result (λ e. e ≡ Fault.Memory) }
    {
        let mut steps = Steps::new();
        self.try_to_node_counted(root, &mut steps)
    }

    /// Answers as `try_to_node` does, is refused as that is, and counts its steps: a visit for each
    /// node whose kind and range are looked at, and the comparisons of the searches among the
    /// children of these nodes. Where `root` has a parent there are none.
    pub fn try_to_node_counted(
        &self,
        root: &SyntaxNode<L>,
        steps: &mut Steps,
    ) -> Result<Option<SyntaxNode<L>>, Fault>
        ensures ok { let means = means_kind L.meaning L.Kind.eq self.now.kind in
            IfOk result (Resolves means self.now.range root.now) }
        ensures counts { let means = means_kind L.meaning L.Kind.eq self.now.kind in
            IfOk result (λ _. CountsResolving means self.now.range root.now steps.old steps.new) }
        ensures grows { (steps.old.comparisons ≤ steps.new.comparisons)
            × (steps.old.visits ≤ steps.new.visits) }
        ensures err { IfErr result (λ e. e ≡ Fault.Memory) }
    {
        match self.try_to_node_ref_counted(root.as_ref(), steps) {
            Some(node) => Ok(Some(node.to_owned()?)),
            None => Ok(None),
        }
    }

    /// The node to which the pointer leads in a borrowed tree, as `try_to_node` finds it. It cannot
    /// fail.
    pub fn try_to_node_ref<'tree>(
        &self,
        root: SyntaxNodeRef<'tree, L>,
    ) -> Option<SyntaxNodeRef<'tree, L>>
        ensures { let means = means_kind L.meaning L.Kind.eq self.now.kind in
            Resolves means self.now.range (node_place root.entry) (option_map node_place result) }
    {
        let mut steps = Steps::new();
        self.try_to_node_ref_counted(root, &mut steps)
    }

    /// Answers as `try_to_node_ref` does, and counts its steps as `try_to_node_counted` does.
    pub fn try_to_node_ref_counted<'tree>(
        &self,
        root: SyntaxNodeRef<'tree, L>,
        steps: &mut Steps,
    ) -> Option<SyntaxNodeRef<'tree, L>>
        ensures found { let means = means_kind L.meaning L.Kind.eq self.now.kind in
            Resolves means self.now.range (node_place root.entry) (option_map node_place result) }
        ensures counts { let means = means_kind L.meaning L.Kind.eq self.now.kind in
            CountsResolving means self.now.range (node_place root.entry) steps.old steps.new }
        ensures grows { (steps.old.comparisons ≤ steps.new.comparisons)
            × (steps.old.visits ≤ steps.new.visits) }
    {
        if root.parent().is_some() {
            return None;
        }
        let mut node = root;
        while !self.is_to(node, steps) {
            let Some(child) = node.child_or_token_at_range_counted(self.range, steps) else {
                return None;
            };
            let NodeOrToken::Node(child) = child else {
                return None;
            };
            node = child;
        }
        Some(node)
    }

    // Whether the node has this kind and this range. Counts the visit.
    fn is_to(&self, node: SyntaxNodeRef<'_, L>, steps: &mut Steps) -> bool
        requires { let place = node_place node in is_node_at place.root place.path ≡ true }
        ensures is { let means = means_kind L.meaning L.Kind.eq self.now.kind in
            let place = node_place node.entry in
            result ≡ is_meant means self.now.range place.root place.path }
        ensures visits { steps.new.visits ≡ one_more steps.old.visits }
        ensures grows { steps.old.visits ≤ steps.new.visits }
        ensures comparisons { steps.new.comparisons ≡ steps.old.comparisons }
    {
        steps.visit();
        node.text_range() == self.range && node.kind() == self.kind
    }

    /// Answers as `try_to_node_ref` does, with `Err(Fault::NotFound)` in place of `None`.
    pub fn to_node_ref<'tree>(
        &self,
        root: SyntaxNodeRef<'tree, L>,
    ) -> Result<SyntaxNodeRef<'tree, L>, Fault>
        ensures ok { let means = means_kind L.meaning L.Kind.eq self.now.kind in IfOk result
            (λ n. Resolves means self.now.range (node_place root.entry) (Some (node_place n))) }
        ensures err { let means = means_kind L.meaning L.Kind.eq self.now.kind in
            IfErr result (λ e. (e ≡ Fault.NotFound)
            × Resolves means self.now.range (node_place root.entry) None) }
    {
        match self.try_to_node_ref(root) {
            Some(node) => Ok(node),
            None => Err(Fault::NotFound),
        }
    }

    /// Answers as `try_to_node` does, with `Err(Fault::NotFound)` in place of `None`.
    pub fn to_node(&self, root: &SyntaxNode<L>) -> Result<SyntaxNode<L>, Fault>
        ensures ok { let means = means_kind L.meaning L.Kind.eq self.now.kind in
            IfOk result (λ node. Resolves means self.now.range root.now (Some node)) }
        ensures err { let means = means_kind L.meaning L.Kind.eq self.now.kind in
            IfErr result (λ e. e ≢ Fault.Memory
            → (e ≡ Fault.NotFound) × Resolves means self.now.range root.now None) }
    {
        self.to_node_ref(root.as_ref())?.to_owned()
    }

    /// The pointer after an edit of the text that put `new_len` bytes in place of those of a range:
    /// the same one where it ends before that range, and one that is moved with the text where it
    /// starts behind the range. `None` where the two overlap, and where the pointer would end past
    /// 4,294,967,295 bytes.
    pub fn after_edit(self, replaced: TextRange, new_len: TextSize) -> Option<SyntaxNodePtr<L>>
        ensures { result ≡ carried replaced new_len self }
    {
        if self.range.end() <= replaced.start() {
            return Some(self);
        }
        if self.range.start() < replaced.end() {
            return None;
        }
        let old_len = replaced.len();
        let start = self.range.start().checked_sub(old_len)?;
        let end = self.range.end().checked_sub(old_len)?;
        let range = TextRange::new(start.checked_add(new_len)?, end.checked_add(new_len)?);
        Some(SyntaxNodePtr { range, ..self })
    }
}
