//! The places of a rule: where a token or a child may stand.
use rowan_grammar_model::grammar::Part;
use rowan_green::TextRange;
use std::alloc::{AllocError, Global};

/// What may stand at a place, by the numbers of items.
#[derive(Drop)]
pub enum Stands {
    /// One of these tokens.
    Token(Vec<usize>),
    /// A node, or one of those of a choice.
    Child(usize),
}

/// A place of a rule.
#[derive(Drop)]
pub struct Place {
    /// The label that names its call.
    pub label: Option<TextRange>,
    pub range: TextRange,
    pub stands: Stands,
    pub is_many: bool,
    /// The number of the innermost alternative in which it is.
    pub branch: Option<usize>,
}

/// An alternative of a choice in a rule.
#[derive(Clone, Copy)]
pub struct Branch {
    /// The number of the choice, and of the alternative in it.
    pub choice: usize,
    pub alternative: usize,
    /// The number of the alternative in which the choice is.
    pub outer: Option<usize>,
}

/// The places of a rule in their order.
#[derive(Drop)]
pub struct Places {
    pub places: Vec<Place>,
    pub branches: Vec<Branch>,
    pub labels: Vec<TextRange>,
    choices: usize,
}

/// What is around a part.
#[derive(Clone, Copy)]
struct Around {
    /// The label of the part itself.
    label: Option<TextRange>,
    /// The label of a group in which it is: that of the nodes in it.
    of_group: Option<TextRange>,
    is_many: bool,
    branch: Option<usize>,
}

/// The places of what may stand in a node.
pub fn places_of(alloc: Global, body: &Part) -> Result<Places, AllocError> {
    let mut found = Places {
        places: Vec::new(alloc),
        branches: Vec::new(alloc),
        labels: Vec::new(alloc),
        choices: 0,
    };
    let around = Around {
        label: None,
        of_group: None,
        is_many: false,
        branch: None,
    };
    add_places(body, around, &mut found)?;
    Ok(found)
}

fn add_places(part: &Part, around: Around, found: &mut Places) -> Result<(), AllocError> {
    match part {
        Part::Token(used) => {
            let alloc = *found.places.allocator();
            let tokens = vec![in alloc; used.item]?;
            found.add(around.label, used.range, Stands::Token(tokens), around)
        }
        Part::Node(used) => {
            let label = around.label.or(around.of_group);
            found.add(label, used.range, Stands::Child(used.item), around)
        }
        Part::Group(parts) => {
            for part in parts.iter() {
                add_places(part, around.inside(), found)?;
            }
            Ok(())
        }
        Part::Choice(parts) => {
            if let (Some(range), Some(tokens)) = (around.label, tokens_of(found, parts)?) {
                return found.add(around.label, range, Stands::Token(tokens), around);
            }
            let choice = found.choices;
            found.choices = choice.saturating_add(1);
            for (alternative, part) in parts.iter().enumerate() {
                let branch = found.add_branch(choice, alternative, around.branch)?;
                add_places(part, around.inside().on(branch), found)?;
            }
            Ok(())
        }
        Part::Repeated(part) => add_places(part, around.many(), found),
        Part::Optional(part) => add_places(part, around, found),
        Part::Labelled(label, part) => {
            found.labels.push(*label)?;
            add_places(part, around.labelled(*label), found)
        }
    }
}

/// The tokens that the alternatives are, if all are tokens.
fn tokens_of(found: &Places, parts: &[Part]) -> Result<Option<Vec<usize>>, AllocError> {
    let mut tokens = Vec::new(*found.places.allocator());
    for part in parts.iter() {
        match part {
            Part::Token(used) => tokens.push(used.item)?,
            _ => return Ok(None),
        }
    }
    Ok(Some(tokens))
}

impl Places {
    fn add(
        &mut self,
        label: Option<TextRange>,
        range: TextRange,
        stands: Stands,
        around: Around,
    ) -> Result<(), AllocError> {
        self.places.push(Place {
            label,
            range,
            stands,
            is_many: around.is_many,
            branch: around.branch,
        })?;
        Ok(())
    }

    /// Adds an alternative, and says its number.
    fn add_branch(
        &mut self,
        choice: usize,
        alternative: usize,
        outer: Option<usize>,
    ) -> Result<usize, AllocError> {
        let number = self.branches.len();
        self.branches.push(Branch {
            choice,
            alternative,
            outer,
        })?;
        Ok(number)
    }
}

impl Around {
    /// Around the parts of a group: its label is theirs where they have none.
    fn inside(self) -> Around {
        Around {
            label: None,
            of_group: self.label.or(self.of_group),
            ..self
        }
    }

    fn on(self, branch: usize) -> Around {
        Around {
            branch: Some(branch),
            ..self
        }
    }

    fn many(self) -> Around {
        Around {
            is_many: true,
            ..self
        }
    }

    fn labelled(self, label: TextRange) -> Around {
        Around {
            label: Some(label),
            of_group: None,
            ..self
        }
    }
}

impl Place {
    /// The number of the item that stands there, of several tokens the first one.
    pub fn item(&self) -> usize {
        match &self.stands {
            Stands::Token(tokens) => tokens.first().copied().unwrap_or(0),
            Stands::Child(item) => *item,
        }
    }

    pub fn is_token(&self) -> bool {
        matches!(&self.stands, Stands::Token(_))
    }
}
