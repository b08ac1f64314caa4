//! Which rules name a rule, and which are to be looked at.
use crate::refusals::parts_of;
use crate::rules::Rule;
use std::alloc::{AllocError, Global};

/// The rules that name each rule, in one list: those of a rule stand from its start to the next.
#[derive(Drop)]
pub(crate) struct Users {
    starts: Vec<usize>,
    users: Vec<usize>,
}

impl Users {
    pub(crate) fn new(alloc: Global, rules: &[Rule]) -> Result<Users, AllocError> {
        let mut starts = starts_of(alloc, rules)?;
        let total = starts.last().copied().unwrap_or(0);
        let mut users: Vec<usize> = vec![in alloc; 0; total]?;
        for (number, rule) in rules.iter().enumerate() {
            let (first, second) = parts_of(*rule);
            put(&mut users, &mut starts, first, number);
            put(&mut users, &mut starts, second, number);
        }
        Ok(Users { starts, users })
    }

    /// The rules that name this one.
    pub(crate) fn of(&self, number: usize) -> &[usize] {
        let start = match number.checked_sub(1) {
            Some(before) => self.starts.get(before).copied().unwrap_or(0),
            None => 0,
        };
        let end = self.starts.get(number).copied().unwrap_or(start);
        self.users.get(start..end).unwrap_or(&[])
    }
}

/// Where the users of each rule are to stand: each number is the sum of those before it. One more
/// has their number.
fn starts_of(alloc: Global, rules: &[Rule]) -> Result<Vec<usize>, AllocError> {
    let mut starts: Vec<usize> = vec![in alloc; 0; rules.len().saturating_add(1)]?;
    for rule in rules {
        let (first, second) = parts_of(*rule);
        count(&mut starts, first);
        count(&mut starts, second);
    }
    let mut sum = 0usize;
    for start in starts.iter_mut() {
        sum = sum.saturating_add(*start);
        *start = sum;
    }
    Ok(starts)
}

/// Counts a user of a rule, at the place of the next one.
fn count(starts: &mut Vec<usize>, part: Option<usize>) {
    if let Some(part) = part {
        if let Some(number) = starts.get_mut(part.saturating_add(1)) {
            *number = number.saturating_add(1);
        }
    }
}

/// Puts a user of a rule where the next of these is to stand.
fn put(users: &mut [usize], starts: &mut Vec<usize>, part: Option<usize>, user: usize) {
    let Some(start) = part.and_then(|part| starts.get_mut(part)) else {
        return;
    };
    if let Some(place) = users.get_mut(*start) {
        *place = user;
        *start = start.saturating_add(1);
    }
}

/// Rules that are to be looked at, each once at a time.
#[derive(Drop)]
pub(crate) struct Waiting {
    numbers: Vec<usize>,
    is_waiting: Vec<bool>,
}

impl Waiting {
    /// All of so many rules, the last one first.
    pub(crate) fn all(alloc: Global, count: usize) -> Result<Waiting, AllocError> {
        let mut numbers = Vec::with_capacity(alloc, count)?;
        for number in 0..count {
            numbers.push(number)?;
        }
        let is_waiting = vec![in alloc; true; count]?;
        Ok(Waiting {
            numbers,
            is_waiting,
        })
    }

    pub(crate) fn add(&mut self, number: usize) -> Result<(), AllocError> {
        match self.is_waiting.get_mut(number) {
            Some(mark) if !*mark => {
                *mark = true;
                self.numbers.push(number)?;
                Ok(())
            }
            _ => Ok(()),
        }
    }

    pub(crate) fn add_all(&mut self, numbers: &[usize]) -> Result<(), AllocError> {
        for number in numbers {
            self.add(*number)?;
        }
        Ok(())
    }

    /// Adds what a rule names.
    pub(crate) fn add_parts(&mut self, rules: &[Rule], number: usize) -> Result<(), AllocError> {
        let Some(rule) = rules.get(number) else {
            return Ok(());
        };
        let (first, second) = parts_of(*rule);
        if let Some(part) = first {
            self.add(part)?;
        }
        match second {
            Some(part) => self.add(part),
            None => Ok(()),
        }
    }

    pub(crate) fn next(&mut self) -> Option<usize> {
        let number = self.numbers.pop()?;
        if let Some(mark) = self.is_waiting.get_mut(number) {
            *mark = false;
        }
        Some(number)
    }
}
