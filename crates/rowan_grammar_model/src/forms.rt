//! The two forms of a wrapper.

/// Whether a wrapper keeps the tree of its node, or borrows the node from it.
#[derive(Clone, Copy, PartialEq, Eq)]
pub enum Form {
    Owned,
    Borrowed,
}

impl Form {
    /// What is behind the name of a wrapper in a type.
    pub fn lifetime(self) -> &'static str {
        match self {
            Form::Owned => "",
            Form::Borrowed => "<'tree>",
        }
    }

    /// How the word of clauses begins that stands for the node in the wrapper of a choice.
    pub fn word(self) -> &'static str {
        match self {
            Form::Owned => "node_in",
            Form::Borrowed => "place_in",
        }
    }

    /// The node as functions of `support` take it.
    pub fn parent(self) -> &'static str {
        match self {
            Form::Owned => "&self.syntax",
            Form::Borrowed => "self.syntax",
        }
    }
}

/// The forms in which something has a wrapper.
#[derive(Clone, Copy, PartialEq, Eq, Debug)]
pub struct Forms {
    pub owned: bool,
    pub borrowed: bool,
}

impl Forms {
    pub const NONE: Forms = Forms {
        owned: false,
        borrowed: false,
    };

    pub const BOTH: Forms = Forms {
        owned: true,
        borrowed: true,
    };

    pub fn has(self, form: Form) -> bool {
        match form {
            Form::Owned => self.owned,
            Form::Borrowed => self.borrowed,
        }
    }

    pub fn with(self, form: Form) -> Forms {
        match form {
            Form::Owned => Forms {
                owned: true,
                ..self
            },
            Form::Borrowed => Forms {
                borrowed: true,
                ..self
            },
        }
    }

    /// Whether the wrappers lead to each other.
    pub fn is_both(self) -> bool {
        self.owned && self.borrowed
    }

    /// What a line `wrappers` says.
    pub fn from_word(word: &str) -> Option<Forms> {
        match word {
            "both" => Some(Forms::BOTH),
            "owned" => Some(Forms::NONE.with(Form::Owned)),
            "borrowed" => Some(Forms::NONE.with(Form::Borrowed)),
            "none" => Some(Forms::NONE),
            _ => None,
        }
    }
}
