//! From the tree of a document to its values and problems, in one walk.
use indexmap::IndexMap;
use rowan::{NodeOrToken, SyntaxElementRef, SyntaxNodeRef, SyntaxTokenRef, TextRange, WalkEvent};
use std::alloc::{AllocError, Global};
use std::mem;
use toml_syntax::{Kind, Toml};
use toml_values::{
    Item, KeyPart, Made, Origin, Problem, ProblemKind, Shape, Tables, Target, Token, Values,
    Version,
};

/// What a document says.
#[derive(Drop)]
pub struct Reading {
    /// The values. Where there are problems, or the parser had errors, these are those that could
    /// be read.
    pub values: Values,
    /// What is wrong, in the order of the text.
    pub problems: Vec<Problem>,
}

/// Reads a document: what it says, and what is wrong with it beyond its syntax. It takes time and
/// memory that grow with the length of the text alone.
///
/// Errors: only when an allocation failed.
pub fn read(
    alloc: Global,
    root: SyntaxNodeRef<'_, Toml>,
    version: Version,
) -> Result<Reading, AllocError> {
    let mut reader = Reader::new(alloc, version)?;
    for event in root.preorder_with_tokens() {
        reader.step(event)?;
    }
    Ok(reader.done())
}

/// What is wrong with a document beyond its syntax, in the order of the text.
///
/// Errors: only when an allocation failed.
pub fn validate(
    alloc: Global,
    root: SyntaxNodeRef<'_, Toml>,
    version: Version,
) -> Result<Vec<Problem>, AllocError> {
    let Reading {
        values: _,
        problems,
    } = read(alloc, root, version)?;
    Ok(problems)
}

/// The values of a document, or what is wrong with it. Of a document with errors of syntax these
/// are the values that could be read.
///
/// Errors: only when an allocation failed.
pub fn values(
    alloc: Global,
    root: SyntaxNodeRef<'_, Toml>,
    version: Version,
) -> Result<Result<Values, Vec<Problem>>, AllocError> {
    let Reading { values, problems } = read(alloc, root, version)?;
    if problems.is_empty() {
        Ok(Ok(values))
    } else {
        Ok(Err(problems))
    }
}

/// What is open where the reader is.
#[derive(Drop)]
enum Open {
    /// An entry, and where its value goes.
    Entry(Option<Target>),
    /// The array at a place.
    Array(usize),
    /// The inline table at a place.
    Table(usize),
}

/// What a token is read as.
#[derive(Clone, Copy, PartialEq, Eq)]
enum Part {
    Key,
    Value,
    Other,
}

/// Where the reader is.
#[derive(Drop)]
struct Reader {
    tables: Tables,
    version: Version,
    /// The place of the table of the last header, if that has a key.
    base: Option<usize>,
    /// The parts of the key that is read.
    key: Vec<KeyPart>,
    part: Part,
    /// What is open, the innermost at the end.
    open: Vec<Open>,
    is_array_header: bool,
    is_in_error: bool,
    /// The comma with nothing behind it so far.
    comma: Option<TextRange>,
}

impl Reader {
    fn new(alloc: Global, version: Version) -> Result<Reader, AllocError> {
        Ok(Reader {
            tables: Tables {
                alloc,
                values: Values::new(alloc)?,
                problems: Vec::new(alloc),
            },
            version,
            base: Some(0),
            key: Vec::new(alloc),
            part: Part::Other,
            open: Vec::new(alloc),
            is_array_header: false,
            is_in_error: false,
            comma: None,
        })
    }

    fn done(self) -> Reading {
        let Reader {
            tables,
            version: _,
            base: _,
            key: _,
            part: _,
            open: _,
            is_array_header: _,
            is_in_error: _,
            comma: _,
        } = self;
        let Tables {
            alloc: _,
            values,
            problems,
        } = tables;
        Reading { values, problems }
    }

    fn step(&mut self, event: WalkEvent<SyntaxElementRef<'_, Toml>>) -> Result<(), AllocError> {
        match event {
            WalkEvent::Enter(NodeOrToken::Node(node)) => self.enter(node),
            WalkEvent::Leave(NodeOrToken::Node(node)) => self.leave(node),
            WalkEvent::Enter(NodeOrToken::Token(token)) if !self.is_in_error => self.token(token),
            _ => Ok(()),
        }
    }

    fn enter(&mut self, node: SyntaxNodeRef<'_, Toml>) -> Result<(), AllocError> {
        match node.kind() {
            Kind::Table => self.begin_header(false),
            Kind::ArrayTable => self.begin_header(true),
            Kind::Entry => self.open.push(Open::Entry(None))?,
            Kind::Key => self.key.clear(),
            Kind::KeyPart => self.part = Part::Key,
            Kind::Scalar => self.part = Part::Value,
            Kind::Array => self.open_array(node.text_range())?,
            Kind::InlineTable => self.open_table(node.text_range())?,
            Kind::Error => self.is_in_error = true,
            _ => {}
        }
        Ok(())
    }

    fn leave(&mut self, node: SyntaxNodeRef<'_, Toml>) -> Result<(), AllocError> {
        match node.kind() {
            Kind::Key => self.key_end(node.text_range())?,
            Kind::KeyPart | Kind::Scalar => self.part = Part::Other,
            Kind::Entry | Kind::Array | Kind::InlineTable => {
                self.open.pop();
            }
            Kind::Error => self.is_in_error = false,
            _ => {}
        }
        Ok(())
    }

    fn open_array(&mut self, range: TextRange) -> Result<(), AllocError> {
        let place = self.put(Item::Array(Vec::new(self.tables.alloc)), range)?;
        self.open.push(Open::Array(place))?;
        Ok(())
    }

    fn open_table(&mut self, range: TextRange) -> Result<(), AllocError> {
        let place = self.put(Item::Table(IndexMap::new(self.tables.alloc)), range)?;
        self.open.push(Open::Table(place))?;
        Ok(())
    }

    fn begin_header(&mut self, is_array: bool) {
        self.base = None;
        self.is_array_header = is_array;
    }

    /// A key that ends: of an entry, or of a header.
    fn key_end(&mut self, range: TextRange) -> Result<(), AllocError> {
        let Some(last) = self.key.pop() else {
            return Ok(());
        };
        if self.open.is_empty() {
            let table = self.header(&last, range)?;
            self.base = Some(table);
            return Ok(());
        }
        let target = self.target(last)?;
        if let Some(Open::Entry(old)) = self.open.last_mut() {
            *old = target;
        }
        Ok(())
    }

    /// The table of a header whose key ends so.
    fn header(&mut self, last: &KeyPart, range: TextRange) -> Result<usize, AllocError> {
        match self.tables.above_header(self.key.as_slice())? {
            Some(above) if self.is_array_header => self.tables.element(above, last, range),
            Some(above) => self.tables.table(above, last, range),
            None => self.tables.nowhere(range),
        }
    }

    /// Where the value of an entry goes whose key ends so.
    fn target(&mut self, last: KeyPart) -> Result<Option<Target>, AllocError> {
        let base = self.entry_base(last.range)?;
        let Some(table) = self.tables.above_entry(base, self.key.as_slice())? else {
            return Ok(None);
        };
        match self.tables.is_free(table, &last)? {
            true => Ok(Some(Target { table, last })),
            false => Ok(None),
        }
    }

    /// The place of the table whose entry is read: of the inline table around it, or of the last
    /// header.
    fn entry_base(&mut self, range: TextRange) -> Result<usize, AllocError> {
        let below = self.open.len().checked_sub(2);
        if let Some(Open::Table(place)) = below.and_then(|index| self.open.get(index)) {
            return Ok(*place);
        }
        if let Some(base) = self.base {
            return Ok(base);
        }
        let base = self.tables.nowhere(range)?;
        self.base = Some(base);
        Ok(base)
    }

    /// Puts a value where it is read, and gives its place.
    fn put(&mut self, item: Item, range: TextRange) -> Result<usize, AllocError> {
        let target = match self.open.last_mut() {
            Some(Open::Entry(target)) => mem::replace(target, None),
            _ => None,
        };
        if let Some(Target { table, last }) = target {
            let key = last.range;
            let place = self.tables.add(table, last, item, Made::Value, range)?;
            self.tables.values.add_key(place, key)?;
            return Ok(place);
        }
        let origin = Origin {
            made: Made::Value,
            key: range,
            range,
        };
        let place = self.tables.values.add(item, origin)?;
        if let Some(Open::Array(array)) = self.open.last() {
            self.tables.push(*array, place)?;
        }
        Ok(place)
    }

    fn token(&mut self, token: SyntaxTokenRef<'_, Toml>) -> Result<(), AllocError> {
        match token.kind() {
            Kind::Whitespace => self.white_space(token),
            Kind::Comment => self.comment(token),
            Kind::Comma => {
                self.comma = Some(token.text_range());
                Ok(())
            }
            Kind::RBrace => self.brace(),
            kind => {
                self.comma = None;
                self.other_token(kind, token)
            }
        }
    }

    fn other_token(
        &mut self,
        kind: Kind,
        token: SyntaxTokenRef<'_, Toml>,
    ) -> Result<(), AllocError> {
        let alloc = self.tables.alloc;
        let part = self.part;
        self.part = Part::Other;
        match part {
            Part::Key => {
                let name = self.token_of(token).decoded(alloc)?;
                let range = token.text_range();
                self.key.push(KeyPart { name, range })?;
            }
            Part::Value => {
                let item = self.token_of(token).value(alloc, shape_of(kind))?;
                self.put(item, token.text_range())?;
            }
            Part::Other => {}
        }
        Ok(())
    }

    fn token_of<'a>(&'a mut self, token: SyntaxTokenRef<'a, Toml>) -> Token<'a> {
        Token {
            text: token.text(),
            range: token.text_range(),
            version: self.version,
            problems: &mut self.tables.problems,
        }
    }

    /// Whether what is read stands in an inline table, and in no array of it.
    fn is_in_table(&self) -> bool {
        let innermost = self.open.iter().rev().find(|open| is_bracket(open));
        matches!(innermost, Some(Open::Table(_)))
    }

    fn white_space(&mut self, token: SyntaxTokenRef<'_, Toml>) -> Result<(), AllocError> {
        let has_line_end = token.text().contains('\n');
        if has_line_end && self.version == Version::V1_0 && self.is_in_table() {
            self.token_of(token).note_all(ProblemKind::LineEndInTable)?;
        }
        Ok(())
    }

    fn comment(&mut self, token: SyntaxTokenRef<'_, Toml>) -> Result<(), AllocError> {
        self.token_of(token).check_comment()
    }

    /// The end of an inline table.
    fn brace(&mut self) -> Result<(), AllocError> {
        if let Some(range) = mem::replace(&mut self.comma, None) {
            if self.version == Version::V1_0 {
                self.tables.problems.push(Problem {
                    kind: ProblemKind::CommaAtEnd,
                    range,
                    first: None,
                })?;
            }
        }
        Ok(())
    }
}

/// The shape of a token of a value by its kind.
fn shape_of(kind: Kind) -> Shape {
    match kind {
        Kind::Boolean => Shape::Boolean,
        Kind::Integer => Shape::Integer,
        Kind::Float => Shape::Float,
        Kind::OffsetDateTime | Kind::LocalDateTime | Kind::LocalDate | Kind::LocalTime => {
            Shape::Datetime
        }
        _ => Shape::String,
    }
}

fn is_bracket(open: &Open) -> bool {
    match open {
        Open::Entry(_) => false,
        Open::Array(_) | Open::Table(_) => true,
    }
}
