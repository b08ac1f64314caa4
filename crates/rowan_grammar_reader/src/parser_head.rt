//! From the lines of the head of a grammar that ask for a parser to what they say.
use crate::reader::Reader;
use crate::rules::only_name;
use crate::syntax::{Grammars, Kind};
use rowan::{NodeOrToken, SyntaxNodeRef, SyntaxTokenRef, TextRange};
use rowan_grammar_model::grammar::Sort;
use rowan_grammar_model::parser_lines::{Attached, LexerPath, Named, Shown};
use std::alloc::{AllocError, Global};
use std::mem;

impl Reader {
    /// A line of the head with this word, which says something of a parser.
    pub fn parser_line(
        &mut self,
        word: &str,
        head: SyntaxNodeRef<'_, Grammars>,
        name: SyntaxTokenRef<'_, Grammars>,
    ) -> Result<(), AllocError> {
        let range = name.text_range();
        let lines = &mut self.grammar.parsing;
        match word {
            "parser" => {
                let old = mem::replace(&mut lines.parser, Some(range));
                self.check_once(old, range)
            }
            "lexer" => {
                let path = path_of(self.alloc, head)?;
                let lexer = LexerPath { range, path };
                let old = mem::replace(&mut self.grammar.parsing.lexer, Some(lexer));
                self.check_once(old.map(|lexer| lexer.range), range)
            }
            "attached" => self.attached_line(head, name),
            _ => {
                let name = String::from_str(self.alloc, name.text())?;
                let words = head.first_token_of_kind(Kind::Literal);
                self.grammar.parsing.shown.push(Shown {
                    range,
                    name,
                    words: words.map(|words| words.text_range()),
                    item: None,
                })?;
                Ok(())
            }
        }
    }

    /// Trivia, and the nodes behind them to which they belong.
    fn attached_line(
        &mut self,
        head: SyntaxNodeRef<'_, Grammars>,
        name: SyntaxTokenRef<'_, Grammars>,
    ) -> Result<(), AllocError> {
        let mut nodes: Vec<Named> = Vec::new(self.alloc);
        if let Some(choice) = head.first_child_by_kind(Kind::Choice) {
            for sequence in choice.children() {
                match only_name(sequence) {
                    Some(node) => nodes.push(named(self.alloc, node)?)?,
                    None => self.problem(
                        sequence.text_range(),
                        "the name of a node is wanted here",
                    )?,
                }
            }
        }
        let trivia = named(self.alloc, name)?;
        self.grammar
            .parsing
            .attached
            .push(Attached { trivia, nodes })?;
        Ok(())
    }

    /// Looks up trivia and the nodes to which they belong.
    pub fn read_attached(&mut self) -> Result<(), AllocError> {
        let mut lines = mem::replace(&mut self.grammar.parsing.attached, Vec::new(self.alloc));
        for line in lines.iter_mut() {
            self.look_up(&mut line.trivia, Sort::Trivia, "trivia")?;
            for node in line.nodes.iter_mut() {
                self.look_up(node, Sort::Node, "node")?;
            }
        }
        self.grammar.parsing.attached = lines;
        Ok(())
    }

    /// Finds what has a name, and complains where that is nothing of a sort.
    fn look_up(&mut self, named: &mut Named, sort: Sort, what: &str) -> Result<(), AllocError> {
        let name = named.name.as_str();
        match self.names.get(name).copied() {
            Some(number) if self.grammar.sort(number) == sort => named.item = Some(number),
            _ => {
                let message = format!(in self.alloc; "no {what} is called `{name}`")?;
                self.error(named.range, message)?;
            }
        }
        Ok(())
    }

    /// Looks up the tokens that messages name in words.
    pub fn read_shown(&mut self) -> Result<(), AllocError> {
        let mut lines = mem::replace(&mut self.grammar.parsing.shown, Vec::new(self.alloc));
        let mut is_shown: Vec<bool> = vec![in self.alloc; false; self.grammar.items.len()]?;
        for shown in lines.iter_mut() {
            let name = shown.name.as_str();
            let item = self.names.get(name).copied();
            match item {
                Some(number) if self.grammar.sort(number) == Sort::Token => {
                    self.check_shown(shown.range, shown.words, is_shown.get_mut(number))?;
                }
                Some(number) if self.grammar.sort(number) == Sort::Trivia => {
                    self.problem(shown.range, "this is trivia, which no message names")?;
                }
                _ => {
                    let message = format!(in self.alloc; "no token is called `{name}`")?;
                    self.error(shown.range, message)?;
                }
            }
            shown.item = item;
        }
        self.grammar.parsing.shown = lines;
        Ok(())
    }

    fn check_shown(
        &mut self,
        range: TextRange,
        words: Option<TextRange>,
        mark: Option<&mut bool>,
    ) -> Result<(), AllocError> {
        if words.is_none() {
            self.problem(range, "words in quotes are wanted behind this")?;
        }
        match mark {
            Some(mark) if *mark => self.problem(range, "a line of the head says this already"),
            Some(mark) => {
                *mark = true;
                Ok(())
            }
            None => Ok(()),
        }
    }
}

/// The names and colons of a line of the head behind its word.
fn path_of(alloc: Global, head: SyntaxNodeRef<'_, Grammars>) -> Result<String, AllocError> {
    let mut path = String::new(alloc);
    for element in head.children_with_tokens() {
        if let NodeOrToken::Token(token) = element {
            if matches!(token.kind(), Kind::Word | Kind::Colon) {
                path.push_str(token.text())?;
            }
        }
    }
    Ok(path)
}

fn named(alloc: Global, name: SyntaxTokenRef<'_, Grammars>) -> Result<Named, AllocError> {
    Ok(Named {
        range: name.text_range(),
        name: String::from_str(alloc, name.text())?,
        item: None,
    })
}
