//! What a grammar works with: the tokens that are no trivia, and the events and errors so far.
ghost use Rattle.std.specs.Prelude.{◌≡◌, ◌↔◌, ◌+◌, ◌-◌, ◌^◌, ◌<◌, ◌≤◌, ◌==◌, if◌then◌else◌};
ghost use Rattle.std.specs.Prelude.{IsTrue, IsSome, IsNone, IfSome, IfOk, IfErr, MatchResult};
ghost use Rattle.std.specs.Prelude.{true, false, [], length, Some, None, slice_get, slice_set};
ghost use Rattle.std.specs.Prelude.{string_bytes};
ghost use Rattle.std.specs.Option.{option_map};
ghost use Rattle.rowan_events.specs.Log.{Is, with_event, with_token, bumped, bumped_as, glued};
ghost use Rattle.rowan_events.specs.Log.{complained_at, complained, missed, told_of, stands_at};
ghost use Rattle.rowan_events.specs.Log.{is_by_place, completed, begun_at, extent_of, place_around};
ghost use Rattle.rowan_events.specs.Log.{around_by, outer_at, stops_here, recovered, ended};
ghost use Rattle.rowan_events.specs.Log.{refused_unless, with_error_node, recovered_over};
ghost use Rattle.rowan_events.specs.Log.{halts_outside, level_behind};
ghost use Rattle.rowan_events.specs.Seen.{piece, start_of, kind_ahead, is_at, is_in, has};
ghost use Rattle.rowan_events.specs.Seen.{text_ahead, is_after_line, is_glued, is_next_glued};
ghost use Rattle.rowan_events.specs.Seen.{range_of, halts_here, next_here};
ghost use Rattle.rowan_events.specs.declared.event.Event.TheVariants.{Nothing};
ghost use Rattle.rowan_events.specs.declared.parser.Spot.TheVariants.{Given, Over};

use crate::event::Event;
use crate::running::Made;
use crate::token_set::{Brackets, TokenSet};
use rowan::{Fault, Language, SyntaxKind, TextRange, TextSize};
use std::alloc::{AllocError, Global};
use std::marker::{Model, PhantomData};

/// Looks at the tokens of a text and takes them one after the other. It passes over trivia.
///
/// No call fails, and none has a condition. Where memory runs out the parser takes note of it and
/// goes on, and `parse` answers `Memory`. A contract sees a parser as the tokens that are left, how
/// many were taken, the events, the errors, and whether there was memory for all of it.
#[derive(Drop)]
pub struct Parser<'t, L> {
    alloc: Global,
    tokens: Vec<SeenToken<'t>>,
    position: usize,
    events: Vec<Event>,
    complaints: Vec<Complaint>,
    has_memory: bool,
    language: PhantomData<L>,
}

/// A token that is no trivia.
#[derive(Clone, Copy)]
#[doc(hidden)]
pub struct SeenToken<'t> {
    pub kind: SyntaxKind,
    pub text: &'t str,
    /// Where it starts in the text, in bytes.
    pub start: u32,
    /// It touches the token before it.
    pub is_joined: bool,
    /// A line ended between it and the token before it.
    pub is_after_line: bool,
}

/// Where a complaint stands.
#[derive(Clone, Copy)]
#[doc(hidden)]
pub enum Spot {
    /// At the current token, or behind the last one where none is left.
    Here,
    /// Behind the last token that was taken.
    Behind,
    /// In this range.
    Given(TextRange),
    /// From the token of this number on, up to the one of that number.
    Over(usize, usize),
}

/// A message, where it stands, and how many tokens that are no trivia were taken before it.
#[derive(Drop)]
#[doc(hidden)]
pub struct Complaint {
    pub message: String,
    pub place: usize,
    pub spot: Spot,
}

impl Model for Complaint {
    ghost use Rattle.std.specs.Prelude.{string_bytes};
    ghost use Rattle.rowan_events.specs.Told.{Told};

    ghost Value = { Told };

    ghost view = { λ c. record {
      place = c.place;
      spot = c.spot;
      message = string_bytes c.message;
    } };
}

impl<'t, L> Model for Parser<'t, L> {
    ghost use Rattle.rowan_events.specs.Log.{Seen};

    ghost Value = { Seen };

    ghost use Rattle.rowan_events.specs.Seen.{pieces_from};

    ghost view = { λ p. record {
      left = pieces_from p.position p.tokens.items;
      taken = p.position;
      events = p.events.items;
      errors = p.complaints.items;
      is_whole = p.has_memory;
    } };
}

/// A node that was begun. It has to be completed or abandoned: code that does neither does not
/// compile.
pub struct Marker {
    place: usize,
    inner: Option<usize>,
    first: usize,
}

impl Model for Marker {
    ghost use Rattle.rowan_events.specs.Log.{Place};

    ghost Value = { Place };

    ghost view = { λ m. record { at = m.place; inner = m.inner; first = m.first } };
}

/// A node that ended. `precede` begins another one around it.
#[derive(Drop)]
pub struct CompletedMarker {
    place: usize,
    first: usize,
    end: usize,
}

impl Model for CompletedMarker {
    ghost use Rattle.rowan_events.specs.Log.{Extent};

    ghost Value = { Extent };

    ghost view = { λ m. record { at = m.place; first = m.first; end = m.end } };
}

impl<'t, L: Language> Parser<'t, L> {
    /// A parser before its first call, with room for seven events for four tokens, so that the list
    /// of events seldom grows.
    #[doc(hidden)]
    pub fn new(alloc: Global, tokens: Vec<SeenToken<'t>>) -> Result<Parser<'t, L>, Fault>
        ensures ok { IfOk result (λ p. p ≡ start_of tokens.entry.items) }
        ensures err { IfErr result (λ fault. fault ≡ Fault.Memory) }
    {
        let room = tokens.len().saturating_add(tokens.len() / 4 * 3);
        let events = Vec::with_capacity(alloc, room)?;
        Ok(Parser {
            alloc,
            tokens,
            position: 0,
            events,
            complaints: Vec::new(alloc),
            has_memory: true,
            language: PhantomData,
        })
    }

    #[doc(hidden)]
    pub fn into_made(self) -> Result<Made, Fault>
        ensures whole { IfOk result (λ _. IsTrue self.entry.is_whole) }
        ensures events { IfOk result (λ made. made.events.items ≡ self.entry.events) }
        ensures errors { IfOk result (λ made. made.complaints.items ≡ self.entry.errors) }
        ensures err { IfErr result (λ fault. fault ≡ Fault.Memory) }
    {
        let Parser {
            alloc: _,
            tokens: _,
            position: _,
            events,
            complaints,
            has_memory,
            language: _,
        } = self;
        if !has_memory {
            return Err(Fault::Memory);
        }
        Ok(Made { events, complaints })
    }

    /// The allocator, for messages.
    pub fn alloc(&self) -> Global {
        self.alloc
    }

    /// The token `n` places ahead.
    fn ahead(&self, n: usize) -> Option<SeenToken<'t>>
        ensures { option_map piece result ≡ slice_get self.now.left n }
    {
        let token = self.tokens.get(self.position.checked_add(n)?)?;
        Some(*token)
    }

    /// The kind of the token `n` places ahead, where 0 is the current one.
    pub fn nth(&self, n: usize) -> Option<L::Kind>
        ensures { result ≡ kind_ahead L.meaning self.now.left n }
    {
        let token = self.tokens.get(self.position.checked_add(n)?)?;
        Some(L::kind_from_raw(token.kind))
    }

    /// The kind of the current token.
    pub fn current(&self) -> Option<L::Kind>
        ensures { result ≡ kind_ahead L.meaning self.now.left 0 }
    {
        self.nth(0)
    }

    /// Whether the current token has this kind.
    pub fn at(&self, kind: L::Kind) -> bool
        ensures { result ≡ is_at L.meaning L.Kind.eq kind self.now.left }
    {
        match self.nth(0) {
            Some(current) => current == kind,
            None => false,
        }
    }

    /// Whether the current token is in this set.
    pub fn at_any(&self, set: TokenSet) -> bool
        ensures { result ≡ is_in (has set.0) self.now.left }
    {
        match self.ahead(0) {
            Some(token) => set.contains(token.kind),
            None => false,
        }
    }

    /// Whether the current token is in this set, or there is none: where recovery stops.
    pub fn at_stop(&self, set: TokenSet) -> bool
        ensures { result ≡ stops_here (has set.0) self.now.left }
    {
        match self.ahead(0) {
            Some(token) => set.contains(token.kind),
            None => true,
        }
    }

    pub fn at_end(&self) -> bool
        ensures { IsTrue result ↔ (self.now.left ≡ []) }
    {
        self.position >= self.tokens.len()
    }

    /// How many tokens are left: `for _ in 0..p.tokens_left()` is a loop that ends.
    pub fn tokens_left(&self) -> usize
        ensures { result ≡ length self.now.left }
    {
        self.tokens.len().saturating_sub(self.position)
    }

    /// The text of the current token, which is empty at the end.
    pub fn text(&self) -> &'t str
        ensures { result.now ≡ text_ahead self.now.left 0 }
    {
        self.nth_text(0)
    }

    /// The text of the token `n` places ahead, which is empty behind the end.
    pub fn nth_text(&self, n: usize) -> &'t str
        ensures { result.now ≡ text_ahead self.now.left n }
    {
        match self.ahead(n) {
            Some(token) => token.text,
            None => "",
        }
    }

    /// Where the current token stands in the text, in bytes. `None` at the end.
    pub fn range(&self) -> Option<TextRange>
        ensures { result ≡ range_of (slice_get self.now.left 0) }
    {
        let token = self.ahead(0)?;
        let end = (token.start as usize).checked_add(token.text.len())?;
        if end > u32::MAX as usize {
            return None;
        }
        let start = TextSize::from(token.start);
        Some(TextRange::new(start, TextSize::from(end as u32)))
    }

    /// Whether the current token has this text, as a word that is a keyword only here.
    pub fn at_contextual(&self, text: &str) -> bool
        ensures { IsTrue result ↔ (text_ahead self.now.left 0 ≡ text.now) }
    {
        self.text() == text
    }

    /// Whether a line ended between the token before and the current one.
    pub fn newline_before(&self) -> bool
        ensures { result ≡ is_after_line self.now.left }
    {
        match self.ahead(0) {
            Some(token) => token.is_after_line,
            None => false,
        }
    }

    /// Whether the next tokens have these kinds, and each but the first touches the one before it,
    /// as `>` and `=` of `>=`.
    pub fn at_glued(&self, kinds: &[L::Kind]) -> bool
        ensures glued { result ≡ is_glued L.meaning L.Kind.eq true kinds.now self.now.left }
        ensures there { IsTrue result → length kinds.now ≤ length self.now.left }
    {
        for (n, kind) in kinds.iter().enumerate() {
            if !self.is_next_glued(n, *kind) {
                return false;
            }
        }
        true
    }

    /// Whether the token `n` places ahead has this kind and, but for the first, touches the one
    /// before it.
    fn is_next_glued(&self, n: usize, kind: L::Kind) -> bool
        ensures { result
            ≡ is_next_glued L.meaning L.Kind.eq (n == 0) kind (slice_get self.now.left n) }
    {
        match self.ahead(n) {
            Some(token) => (n == 0 || token.is_joined) && L::kind_from_raw(token.kind) == kind,
            None => false,
        }
    }

    /// Takes the current token, if there is one.
    pub fn bump(&mut self)
        ensures { Is (bumped self.old) self.new }
    {
        self.take(Event::Token);
    }

    /// Takes the current token, if there is one, with this kind in place of the one that the lexer
    /// said, as for a word that is a keyword only here.
    pub fn bump_as(&mut self, kind: L::Kind)
        ensures { Is (bumped_as (L.code kind) self.old) self.new }
    {
        self.take(Event::Joined(L::kind_to_raw(kind), 1));
    }

    /// Takes the next `n` tokens, or as many as there are, with what stands between them, as one
    /// leaf of this kind.
    pub fn bump_glued(&mut self, kind: L::Kind, n: u32)
        ensures { Is (glued (L.code kind) n self.old) self.new }
    {
        let some = self.tokens_left().min(n as usize);
        if some > 0 {
            self.position += some;
            self.push(Event::Joined(L::kind_to_raw(kind), some as u32));
        }
    }

    /// Takes the current token where it has this kind.
    pub fn eat(&mut self, kind: L::Kind) -> bool
        ensures there { result ≡ is_at L.meaning L.Kind.eq kind self.old.left }
        ensures some { IsTrue result → 0 < length self.old.left }
        ensures taken { Is (if result then bumped self.old else self.old) self.new }
    {
        if !self.at(kind) {
            return false;
        }
        self.bump();
        true
    }

    /// Takes the current token where it has this kind, and else complains of what is missing behind
    /// the last token that was taken: of a missing `;` in its line, and not at the next statement.
    pub fn expect(&mut self, kind: L::Kind, message: &str) -> bool
        ensures there { result ≡ is_at L.meaning L.Kind.eq kind self.old.left }
        ensures some { IsTrue result → 0 < length self.old.left }
        ensures taken { Is (if result then bumped self.old else missed message.now self.old)
            self.new }
    {
        let eaten = self.eat(kind);
        if !eaten {
            self.missing(message);
        }
        eaten
    }

    /// Complains of the current token, or behind the last one where none is left, unless the last
    /// complaint was of the same place.
    pub fn error(&mut self, message: &str)
        ensures { Is (complained message.now self.old) self.new }
    {
        match String::from_str(self.alloc, message) {
            Ok(message) => self.complain(Spot::Here, message),
            Err(_) => self.has_memory = false,
        }
    }

    /// Complains of what is missing behind the last token that was taken, by an empty range there,
    /// unless the last complaint was of the same place. `expect` does this.
    pub fn missing(&mut self, message: &str)
        ensures { Is (missed message.now self.old) self.new }
    {
        match String::from_str(self.alloc, message) {
            Ok(message) => self.complain(Spot::Behind, message),
            Err(_) => self.has_memory = false,
        }
    }

    /// Complains of a range of the text, in bytes, which the error has as it is given.
    pub fn error_at(&mut self, range: TextRange, message: &str)
        ensures { Is (told_of (Given range) message.now self.old) self.new }
    {
        self.tell(Spot::Given(range), message);
    }

    /// Complains of a node that ended: of the tokens that were taken between its beginning and its
    /// end, without the trivia around them.
    pub fn error_over(&mut self, node: &CompletedMarker, message: &str)
        ensures { Is (told_of (Over node.now.first node.now.end) message.now self.old) self.new }
    {
        self.tell(Spot::Over(node.first, node.end), message);
    }

    /// Complains by a message that was formatted, as by `format!(in p.alloc(); ..)`.
    pub fn error_formatted(&mut self, message: Result<String, AllocError>)
        ensures { MatchResult message
            (λ text. Is (complained (string_bytes text) self.old) self.new)
            (λ _. (self.new.left ≡ self.old.left) × (self.new.is_whole ≡ false)) }
    {
        match message {
            Ok(message) => self.complain(Spot::Here, message),
            Err(_) => self.has_memory = false,
        }
    }

    /// Complains, and puts a node of this kind around the current token, if there is one.
    pub fn error_and_bump(&mut self, kind: L::Kind, message: &str)
        ensures node { 0 < length self.old.left
            → Is (with_error_node (L.code kind) (complained message.now self.old)) self.new }
        ensures end { self.old.left ≡ [] → Is (complained message.now self.old) self.new }
    {
        self.error(message);
        if !self.at_end() {
            let marker = self.start();
            self.bump();
            self.complete(marker, kind);
        }
    }

    /// Complains. At a token of this set and at the end it takes nothing and answers true, and else
    /// it puts a node of this kind around the current token.
    pub fn err_recover(&mut self, message: &str, set: TokenSet, error: L::Kind) -> bool
        ensures there { result ≡ stops_here (has set.0) self.old.left }
        ensures made { Is (refused_unless result (L.code error)
            (complained message.now self.old)) self.new }
    {
        self.error(message);
        if self.at_stop(set) {
            return true;
        }
        let marker = self.start();
        self.bump();
        self.complete(marker, error);
        false
    }

    /// Puts a node of this kind around the tokens up to the first one of this set, or to the end,
    /// if there are any.
    #[tactic(auto, using(crate::proofs::Skipping::skipping))]
    pub fn recover_until(&mut self, set: TokenSet, error: L::Kind)
        ensures { Is (recovered (L.code error) (has set.0) self.old) self.new }
    {
        if self.at_stop(set) {
            return;
        }
        let marker = self.start();
        'skip: while !self.at_stop(set) {
            self.bump();
        }
        self.complete(marker, error);
    }

    /// Puts a node of this kind around the tokens up to the first one of this set, or to the end,
    /// if there are any. A token of the set does not stop between brackets that open among these
    /// tokens.
    pub fn recover_over(&mut self, set: TokenSet, brackets: Brackets, error: L::Kind)
        ensures { Is (recovered_over (L.code error) (has set.0) (has brackets.open.0)
            (has brackets.close.0) self.old) self.new }
    {
        if self.at_stop(set) {
            return;
        }
        let most = self.tokens_left();
        let marker = self.start();
        let mut level = 0;
        'skip: while !self.halts(set, level) {
            level = self.level_behind(brackets, level);
            self.bump();
        }
        self.complete(marker, error);
    }

    /// Whether recovery that is so many brackets deep stops at the current token.
    fn halts(&self, set: TokenSet, level: usize) -> bool
        ensures { result ≡ halts_here (halts_outside (has set.0)) level self.now.left }
    {
        match self.ahead(0) {
            Some(token) => level == 0 && set.contains(token.kind),
            None => true,
        }
    }

    /// How many brackets are open behind the current token, before which so many are.
    fn level_behind(&self, brackets: Brackets, level: usize) -> usize
        requires { level < 2 ^ 64 - 1 }
        ensures { result
            ≡ next_here (level_behind (has brackets.open.0) (has brackets.close.0)) level
            self.now.left }
    {
        match self.ahead(0) {
            Some(token) if brackets.open.contains(token.kind) => level + 1,
            Some(token) if brackets.close.contains(token.kind) => level.saturating_sub(1),
            _ => level,
        }
    }

    /// Complains, and puts a node of this kind around all tokens that are left, if there are any.
    pub fn error_to_end(&mut self, kind: L::Kind, message: &str)
        ensures ended { Is (ended (L.code kind) message.now self.old) self.new }
        ensures nothing_left { self.new.left ≡ [] }
    {
        self.error(message);
        self.recover_until(TokenSet::EMPTY, kind);
    }

    /// The depth for what stands one level deeper. At depth 0 there is none: the parser complains
    /// and puts a node of this kind around all tokens that are left. So a grammar that takes a
    /// depth, and calls itself with what this call gives, ends on each text, and its caller says
    /// how deep it may go.
    pub fn deeper(&mut self, depth: usize, kind: L::Kind, message: &str) -> Option<usize>
        ensures depth { IfSome result (λ less. less + 1 ≡ depth) }
        ensures none { IsNone result → depth ≡ 0 }
        ensures kept { IsSome result → self.new ≡ self.old }
        ensures ended { IsNone result → Is (ended (L.code kind) message.now self.old) self.new }
        ensures nothing_left { IsNone result → self.new.left ≡ [] }
    {
        let less = depth.checked_sub(1);
        if less.is_none() {
            self.error_to_end(kind, message);
        }
        less
    }

    /// The depth for what stands one level deeper, as `deeper` gives it. At depth 0 there is none:
    /// the parser complains, and puts a node of this kind around the tokens up to the first one of
    /// this set that stands outside of brackets, as `recover_over` does.
    pub fn deeper_or_recover(
        &mut self,
        depth: usize,
        kind: L::Kind,
        message: &str,
        set: TokenSet,
        brackets: Brackets,
    ) -> Option<usize>
        ensures depth { IfSome result (λ less. less + 1 ≡ depth) }
        ensures none { IsNone result → depth ≡ 0 }
        ensures kept { IsSome result → self.new ≡ self.old }
        ensures recovered { IsNone result → Is (recovered_over (L.code kind) (has set.0)
            (has brackets.open.0) (has brackets.close.0) (complained message.now self.old))
            self.new }
    {
        let less = depth.checked_sub(1);
        if less.is_none() {
            self.error(message);
            self.recover_over(set, brackets, kind);
        }
        less
    }

    /// Begins a node here.
    pub fn start(&mut self) -> Marker
        ensures began { Is (with_event Nothing self.old) self.new }
        ensures marker { result ≡ begun_at self.old }
    {
        let place = self.events.len();
        let first = self.position;
        self.push(Event::Nothing);
        Marker {
            place,
            inner: None,
            first,
        }
    }

    /// Begins a node around one that ended. What was made behind that one stands in it too.
    pub fn precede(&mut self, completed: CompletedMarker) -> Marker
        ensures began { Is (with_event Nothing self.old) self.new }
        ensures marker { result ≡ place_around completed self.old }
    {
        let CompletedMarker {
            place: inner,
            first,
            end: _,
        } = completed;
        let place = self.events.len();
        self.push(Event::Nothing);
        Marker {
            place,
            inner: Some(inner),
            first,
        }
    }

    /// Gives this kind to the node that the marker began, and ends the innermost open node. That is
    /// one and the same where the markers that were begun since are completed or abandoned. Where
    /// one of them is completed later, each node still begins where its marker began, but the
    /// innermost one ends here.
    pub fn complete(&mut self, marker: Marker, kind: L::Kind) -> CompletedMarker
        ensures node { Is (completed marker (L.code kind) self.old) self.new }
        ensures marker { result ≡ extent_of marker self.old }
    {
        let Marker {
            place,
            inner,
            first,
        } = marker;
        let raw = L::kind_to_raw(kind);
        let end = self.position;
        match inner {
            None => set(&mut self.events, place, Event::Open(raw, 0)),
            Some(inner) => {
                set(&mut self.events, place, Event::Around(raw, 0));
                if !set_outer(&mut self.events, inner, place) {
                    self.has_memory = false;
                }
            }
        }
        self.push(Event::Close);
        CompletedMarker { place, first, end }
    }

    /// Gives up a node that was begun: what was put into it stands in the node around.
    pub fn abandon(&mut self, marker: Marker)
        ensures { self.new ≡ self.old }
    {
        let Marker {
            place: _,
            inner: _,
            first: _,
        } = marker;
    }

    /// Takes the current token, if there is one, by this event.
    fn take(&mut self, event: Event)
        ensures { Is (with_token event self.old.left self.old) self.new }
    {
        if self.position < self.tokens.len() {
            self.position += 1;
            self.push(event);
        }
    }

    fn push(&mut self, event: Event)
        ensures { Is (with_event event self.old) self.new }
    {
        if self.events.push(event).is_err() {
            self.has_memory = false;
        }
    }

    /// Complains, unless the last complaint was of this place.
    fn complain(&mut self, spot: Spot, message: String)
        ensures { Is (complained_at spot (string_bytes message) self.old) self.new }
    {
        if !is_last_at(self.complaints.as_slice(), self.position) {
            self.note(spot, message);
        }
    }

    fn tell(&mut self, spot: Spot, message: &str)
        ensures { Is (told_of spot message.now self.old) self.new }
    {
        match String::from_str(self.alloc, message) {
            Ok(message) => self.note(spot, message),
            Err(_) => self.has_memory = false,
        }
    }

    fn note(&mut self, spot: Spot, message: String)
        ensures { Is (told_of spot (string_bytes message) self.old) self.new }
    {
        let place = self.position;
        let complaint = Complaint {
            message,
            place,
            spot,
        };
        if self.complaints.push(complaint).is_err() {
            self.has_memory = false;
        }
    }
}

/// Whether a complaint stands where the parser was, and not where the grammar said.
fn is_by_place(spot: Spot) -> bool
    ensures { result ≡ is_by_place spot }
{
    match spot {
        Spot::Here => true,
        Spot::Behind => true,
        Spot::Given(_) => false,
        Spot::Over(_, _) => false,
    }
}

/// Whether the last complaint is of this place.
fn is_last_at(complaints: &[Complaint], place: usize) -> bool
    ensures { result ≡ stands_at place (slice_get complaints.now (length complaints.now - 1)) }
{
    match complaints.last() {
        Some(last) => is_by_place(last.spot) && last.place == place,
        None => false,
    }
}

/// Puts an event in the place of another one, where there is one.
fn set(events: &mut Vec<Event>, place: usize, event: Event)
    ensures { events.new.items ≡ slice_set events.old.items place event }
{
    if place < events.len() {
        events[place] = event;
    }
}

/// Says of an inner event that the node around it begins at an outer one. Answers whether the
/// distance fits.
fn set_outer(events: &mut Vec<Event>, inner: usize, outer: usize) -> bool
    ensures { IsTrue result
        → events.new.items ≡ outer_at inner (outer - inner) events.old.items }
{
    let Ok(distance) = u32::try_from(outer.saturating_sub(inner)) else {
        return false;
    };
    if inner < events.len() {
        let event = around_by(events[inner], distance);
        events[inner] = event;
    }
    true
}

fn around_by(event: Event, distance: u32) -> Event
    ensures { result ≡ around_by distance event }
{
    match event {
        Event::Open(kind, _) => Event::Open(kind, distance),
        Event::Around(kind, _) => Event::Around(kind, distance),
        Event::Close => Event::Close,
        Event::Token => Event::Token,
        Event::Joined(kind, n) => Event::Joined(kind, n),
        Event::Nothing => Event::Nothing,
    }
}
