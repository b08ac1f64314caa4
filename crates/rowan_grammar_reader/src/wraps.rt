//! In which forms nodes, choices and tokens have wrappers.
use crate::reader::Reader;
use crate::syntax::Grammars;
use rowan::SyntaxTokenRef;
use rowan_grammar_model::forms::{Form, Forms};
use rowan_grammar_model::grammar::{Item, Sort, Wrap};
use std::alloc::AllocError;
use std::mem;

/// More steps than any way through a grammar has: a loop over it ends where nothing is open.
const MAX_STEPS: usize = usize::MAX;

impl Reader {
    /// A line of the head that says which wrappers there are, but for those that are named.
    pub fn set_forms(&mut self, word: SyntaxTokenRef<'_, Grammars>) -> Result<(), AllocError> {
        let range = word.text_range();
        match Forms::from_word(word.text()) {
            Some(forms) => self.grammar.forms = forms,
            None => {
                let message = "`both`, `owned`, `borrowed` or `none` is wanted here";
                self.problem(range, message)?;
            }
        }
        let old = mem::replace(&mut self.grammar.wrappers, Some(range));
        self.check_once(old, range)
    }

    /// A line of the head that names what has a wrapper of a form.
    pub fn add_wrap(
        &mut self,
        name: SyntaxTokenRef<'_, Grammars>,
        form: Form,
    ) -> Result<(), AllocError> {
        let range = name.text_range();
        let name = String::from_str(self.alloc, name.text())?;
        self.grammar.wraps.push(Wrap { range, name, form })?;
        Ok(())
    }

    /// Says of each item in which forms it has a wrapper.
    pub fn read_forms(&mut self) -> Result<(), AllocError> {
        let all = self.grammar.forms;
        for item in self.grammar.items.iter_mut() {
            item.forms = forms_of(item, all);
        }
        let wraps = mem::replace(&mut self.grammar.wraps, Vec::new(self.alloc));
        for wrap in wraps.iter() {
            let name = wrap.name.as_str();
            match self.names.get(name).copied() {
                Some(number) if self.grammar.sort(number).is_wrapped() => {
                    self.wrap(number, wrap.form)?;
                }
                _ => {
                    let message = format!(in self.alloc; "no rule is called `{name}`")?;
                    self.error(wrap.range, message)?;
                }
            }
        }
        Ok(())
    }

    /// Says that an item has a wrapper of a form, and so has what a choice is one of.
    fn wrap(&mut self, start: usize, form: Form) -> Result<(), AllocError> {
        let mut open: Vec<usize> = vec![in self.alloc; start]?;
        for _ in 0..MAX_STEPS {
            let Some(number) = open.pop() else {
                break;
            };
            if !self.add_form(number, form) {
                continue;
            }
            for used in self.grammar.alternatives(number).iter() {
                open.push(used.item)?;
            }
        }
        Ok(())
    }

    /// Adds a form of wrapper to an item. Says whether the item had it not before.
    fn add_form(&mut self, number: usize, form: Form) -> bool {
        match self.grammar.items.get_mut(number) {
            Some(item) if !item.forms.has(form) => {
                item.forms = item.forms.with(form);
                true
            }
            _ => false,
        }
    }
}

/// The forms in which an item has a wrapper where no line names it.
fn forms_of(item: &Item, all: Forms) -> Forms {
    match item.sort {
        Sort::Node | Sort::Choice => all,
        _ if item.has_content => Forms::BOTH,
        _ => Forms::NONE,
    }
}
