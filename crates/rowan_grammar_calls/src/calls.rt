//! The calls of a wrapper: one for each part of its rule.
use crate::alike::Sets;
use crate::places::{Branch, Place, Places, Stands, places_of};
use crate::reach::Looker;
use crate::roles::{Role, roles_of};
use rowan_grammar_model::forms::Form;
use rowan_grammar_model::grammar::{Grammar, Item};
use rowan_grammar_model::names::{is_word, plural, upper};
use rowan_grammar_model::place::text_at;
use rowan_green::TextRange;
use std::alloc::{AllocError, Global};
use std::collections::HashMap;

/// What a call gives, by the numbers of items.
#[derive(Clone, Copy, PartialEq, Eq)]
pub enum Gives {
    /// The first token of a kind.
    Token(usize),
    /// Of the tokens of some kinds the one at an index.
    NthToken(Nth),
    /// The first child that casts.
    Child(usize),
    /// Of the children of some kinds the one at an index, if it casts.
    NthChild(usize, Nth),
    /// The children that cast.
    Children(usize),
}

/// Which of the parts that are alike it is.
#[derive(Clone, Copy, PartialEq, Eq)]
pub struct Nth {
    /// The number of their kinds in `Calls::alike`.
    pub alike: usize,
    pub index: usize,
}

/// A call that gives a part of a node.
#[derive(Drop)]
pub struct Call {
    pub name: String,
    pub range: TextRange,
    pub gives: Gives,
}

impl Call {
    /// The number of the item whose token or child it gives; of some of several tokens none.
    pub fn item(&self) -> Option<usize> {
        match self.gives {
            Gives::Token(item) | Gives::Child(item) | Gives::Children(item) => Some(item),
            Gives::NthChild(item, _) => Some(item),
            Gives::NthToken(_) => None,
        }
    }

    /// Whether wrappers of a form have it: what it gives needs a wrapper of that form.
    pub fn is_in(&self, grammar: &Grammar, form: Form) -> bool {
        match self.gives {
            Gives::Token(_) | Gives::NthToken(_) => true,
            Gives::Child(item) | Gives::NthChild(item, _) | Gives::Children(item) => grammar
                .forms(item)
                .has(form),
        }
    }

    /// Which of the parts that are alike it gives.
    pub fn nth(&self) -> Option<Nth> {
        match self.gives {
            Gives::NthChild(_, nth) | Gives::NthToken(nth) => Some(nth),
            _ => None,
        }
    }
}

/// The kinds of parts that are alike.
#[derive(Drop)]
pub struct Alike {
    /// The name of the constant that has them.
    pub name: String,
    /// The numbers of their items.
    pub kinds: Vec<usize>,
}

/// Two parts of which a child or a token may be either, and no index tells them apart.
#[derive(Drop)]
pub struct Clash {
    pub range: TextRange,
    /// The number of an item that may stand there.
    pub item: usize,
    /// The numbers of their calls.
    pub one: Option<usize>,
    pub other: Option<usize>,
}

/// The calls of a node, and what is wrong with them.
#[derive(Drop)]
pub struct Calls {
    pub calls: Vec<Call>,
    pub alike: Vec<Alike>,
    pub clashes: Vec<Clash>,
    /// Labels that name no call.
    pub idle: Vec<TextRange>,
}

/// What came so far of the places of one set.
#[derive(Drop)]
struct SetSoFar {
    /// How many places it has, those whose call is that of an earlier one left out.
    total: usize,
    index: usize,
    /// The last place.
    last: Option<usize>,
    /// A place that may have many.
    many: Option<usize>,
    /// Of each choice around a place the alternative.
    chosen: HashMap<usize, Chosen>,
    /// The number of its kinds in `Calls::alike`.
    alike: Option<usize>,
}

/// The alternative of a choice, and a place in it.
#[derive(Clone, Copy)]
struct Chosen {
    alternative: usize,
    place: usize,
}

/// Makes the calls of a node.
#[derive(Drop)]
struct Maker<'g> {
    alloc: Global,
    text: &'g str,
    grammar: &'g Grammar,
    snake: &'g str,
    sets: Sets,
    so_far: Vec<SetSoFar>,
    /// The numbers of the calls of the places.
    call_at: Vec<Option<usize>>,
    made: Calls,
}

/// The calls of a node, in the order of its parts. Places without labels at which one node stands
/// have one call, where one of them may come many times. A token that may come many times has no
/// call.
pub fn calls_of(
    alloc: Global,
    text: &str,
    grammar: &Grammar,
    looker: &mut Looker,
    item: &Item,
) -> Result<Calls, AllocError> {
    let found = places_of(alloc, &item.body)?;
    let roles = roles_of(alloc, found.places.as_slice())?;
    let places = found.places.as_slice();
    let sets = Sets::new(alloc, grammar, looker, places, roles.as_slice())?;
    let mut maker = Maker {
        alloc,
        text,
        grammar,
        snake: item.snake.as_str(),
        sets,
        so_far: Vec::new(alloc),
        call_at: Vec::new(alloc),
        made: Calls {
            calls: Vec::new(alloc),
            alike: Vec::new(alloc),
            clashes: Vec::new(alloc),
            idle: Vec::new(alloc),
        },
    };
    maker.count(roles.as_slice())?;
    for (number, place) in places.iter().enumerate() {
        let role = roles.get(number).copied().unwrap_or(Role::Given);
        maker.add(number, place, role, found.branches.as_slice())?;
    }
    maker.add_idle(&found)?;
    let Maker { made, .. } = maker;
    Ok(made)
}

impl Maker<'_> {
    /// Counts the places of each set.
    fn count(&mut self, roles: &[Role]) -> Result<(), AllocError> {
        for (number, role) in roles.iter().enumerate() {
            self.call_at.push(None)?;
            self.so_far.push(SetSoFar {
                total: 0,
                index: 0,
                last: None,
                many: None,
                chosen: HashMap::new(self.alloc),
                alike: None,
            })?;
            let set = self.sets.set_of(number);
            if let Some(so_far) = self.so_far.get_mut(set) {
                so_far.total = so_far
                    .total
                    .saturating_add(usize::from(*role != Role::Given));
            }
        }
        Ok(())
    }

    /// Adds the call for a place, if it has one of its own.
    fn add(
        &mut self,
        number: usize,
        place: &Place,
        role: Role,
        branches: &[Branch],
    ) -> Result<(), AllocError> {
        if role == Role::Given {
            return Ok(());
        }
        let set = self.sets.set_of(number);
        if role != Role::Passed {
            let name = self.call_name(place, role)?;
            let gives = self.gives(set, place, role, name.as_str())?;
            if let Some(slot) = self.call_at.get_mut(number) {
                *slot = Some(self.made.calls.len());
            }
            let range = place.range;
            self.made.calls.push(Call { name, range, gives })?;
        }
        self.add_clash(set, number, place, role, branches)?;
        if let Some(so_far) = self.so_far.get_mut(set) {
            so_far.index = so_far.index.saturating_add(1);
            so_far.last = Some(number);
            if place.is_many || role == Role::Many {
                so_far.many = Some(number);
            }
        }
        Ok(())
    }

    fn gives(
        &mut self,
        set: usize,
        place: &Place,
        role: Role,
        name: &str,
    ) -> Result<Gives, AllocError> {
        let is_among_others = match self.so_far.get(set) {
            Some(so_far) => so_far.total > 1,
            None => false,
        };
        match &place.stands {
            Stands::Token(tokens) if is_among_others || tokens.len() > 1 => Ok(Gives::NthToken(
                self.nth(set, name)?,
            )),
            Stands::Token(_) => Ok(Gives::Token(place.item())),
            Stands::Child(item) if role == Role::Many => Ok(Gives::Children(*item)),
            Stands::Child(item) if is_among_others => Ok(Gives::NthChild(
                *item,
                self.nth(set, name)?,
            )),
            Stands::Child(item) => Ok(Gives::Child(*item)),
        }
    }

    /// Which one the next place of a set is. The constant that has the kinds of the set is named
    /// after the first call.
    fn nth(&mut self, set: usize, name: &str) -> Result<Nth, AllocError> {
        let (index, alike) = match self.so_far.get(set) {
            Some(so_far) => (so_far.index, so_far.alike),
            None => (0, None),
        };
        if let Some(alike) = alike {
            return Ok(Nth { alike, index });
        }
        let alike = self.made.alike.len();
        let kinds = self.sets.kinds_of(self.alloc, set)?;
        let snake = format!(in self.alloc; "{}_{name}", self.snake)?;
        let name = upper(self.alloc, snake.as_str())?;
        self.made.alike.push(Alike { name, kinds })?;
        if let Some(so_far) = self.so_far.get_mut(set) {
            so_far.alike = Some(alike);
        }
        Ok(Nth { alike, index })
    }

    /// Tells where no index says which part of a set it is: behind a part that may come many times,
    /// at such a part behind another, and in another alternative of a choice.
    fn add_clash(
        &mut self,
        set: usize,
        number: usize,
        place: &Place,
        role: Role,
        branches: &[Branch],
    ) -> Result<(), AllocError> {
        let Some(so_far) = self.so_far.get_mut(set) else {
            return Ok(());
        };
        let chosen = choose(&mut so_far.chosen, number, place, branches)?;
        let before = match role {
            Role::Many => so_far.last,
            Role::One => so_far.many,
            _ => None,
        };
        let Some(other) = before.or(chosen) else {
            return Ok(());
        };
        let one = self.call_at.get(other).copied().flatten();
        let other = self.call_at.get(number).copied().flatten();
        if one.is_some() || other.is_some() {
            let range = place.range;
            let item = place.item();
            self.made.clashes.push(Clash {
                range,
                item,
                one,
                other,
            })?;
        }
        Ok(())
    }

    /// The name of the call for a place. An underscore is behind it where a word of the language is in
    /// the way.
    fn call_name(&self, place: &Place, role: Role) -> Result<String, AllocError> {
        let snake = self.grammar.snake(place.item());
        let mut name = match place.label {
            Some(label) => String::from_str(self.alloc, text_at(self.text, label))?,
            None if place.is_token() => format!(in self.alloc; "{snake}_token")?,
            None if role == Role::Many => plural(self.alloc, snake)?,
            None => String::from_str(self.alloc, snake)?,
        };
        if is_word(name.as_str()) {
            name.push('_')?;
        }
        Ok(name)
    }

    /// Adds the labels that name no call.
    fn add_idle(&mut self, found: &Places) -> Result<(), AllocError> {
        let mut named: HashMap<TextRange, bool> = HashMap::new(self.alloc);
        for (place, call) in found.places.iter().zip(self.call_at.iter()) {
            if let (Some(label), Some(_)) = (place.label, call) {
                named.insert(label, true)?;
            }
        }
        for label in found.labels.iter() {
            if !named.contains_key(label) {
                self.made.idle.push(*label)?;
            }
        }
        Ok(())
    }
}

/// Notes in which alternatives a place is. Gives the place of the set that is in another one of the
/// same choice.
fn choose(
    chosen: &mut HashMap<usize, Chosen>,
    place: usize,
    at: &Place,
    branches: &[Branch],
) -> Result<Option<usize>, AllocError> {
    let mut other = None;
    let mut next = at.branch;
    for _ in 0..branches.len() {
        let Some(branch) = next.and_then(|number| branches.get(number).copied()) else {
            break;
        };
        let alternative = branch.alternative;
        match chosen.get(&branch.choice).copied() {
            Some(old) if old.alternative != alternative => other = Some(old.place),
            _ => {
                chosen.insert(branch.choice, Chosen { alternative, place })?;
            }
        }
        next = branch.outer;
    }
    Ok(other)
}
