//! What is said where a token does not fit.
ghost use Rattle.std.specs.Prelude.{◌≡◌, ◌<◌, ◌∷◌, [], ◌++◌, ℕ, cond, IfOk, IfErr, OnOk};
ghost use Rattle.std.specs.Prelude.{string_bytes};
ghost use Rattle.rowan_events.specs.Seen.{has};
ghost use Rattle.rowan_predictive.specs.Messages.{fits_at, fitting, fitting_from, word_of};
ghost use Rattle.rowan_predictive.specs.Messages.{separator};
ghost use Rattle.rowan_predictive.specs.Messages.{words_text, message_of};

use crate::choice::{first, follow, may_be_empty};
use crate::rules::{Complaint, Entry};
use rowan::{Fault, SyntaxKind};
use rowan_parser::TokenSet;
use std::alloc::Global;

/// The tokens that fit where a rule is expected: those by which it begins, and those that may stand
/// behind it if it may be left out.
fn fitting_set(entries: &[Entry], number: usize) -> TokenSet
    ensures { (kind : ℕ) → has result.0 kind ≡ fits_at entries.now number kind }
{
    let begins = first(entries, number);
    if may_be_empty(entries, number) {
        return begins.union(follow(entries, number));
    }
    begins
}

/// The kinds of a set, in order.
fn members_of(alloc: Global, kinds: TokenSet) -> Result<Vec<u16>, Fault>
    ensures members { IfOk result (λ members. members.items ≡ fitting_from (has kinds.0) 128 0) }
    ensures err { IfErr result (λ e. e ≡ Fault.Memory) }
{
    let mut members = Vec::new(alloc);
    for kind in 0..128u16 {
        push_member(&mut members, kind, kinds.contains(SyntaxKind(kind)))?;
    }
    Ok(members)
}

/// Puts a kind behind the others, if it is a member.
fn push_member(members: &mut Vec<u16>, kind: u16, is_member: bool) -> Result<(), Fault>
    ensures members { OnOk result (members.new.items
        ≡ members.old.items ++ cond is_member (kind ∷ []) []) }
    ensures err { IfErr result (λ e. e ≡ Fault.Memory) }
{
    if is_member {
        members.push(kind)?;
    }
    Ok(())
}

/// The name of a token, as a message shows it.
fn word_of<'a>(words: &[&'a str], kind: u16) -> &'a str
    ensures { result.now ≡ word_of words.now kind }
{
    match words.get(usize::from(kind)) {
        None => "another token",
        Some(word) => word,
    }
}

/// What stands before name number `i` of so many.
fn separator(i: usize, count: usize) -> &'static str
    requires { i < count }
    ensures { result.now ≡ separator i count }
{
    if i == 0 {
        return "";
    }
    if i + 1 == count {
        return " or ";
    }
    ", "
}

/// Puts the names of tokens behind the text, as `a, b or c`.
fn push_words(out: &mut String, words: &[&str], kinds: &[u16]) -> Result<(), Fault>
    ensures put { OnOk result (string_bytes out.new
        ≡ string_bytes out.old ++ words_text words.now kinds.now) }
    ensures err { IfErr result (λ e. e ≡ Fault.Memory) }
{
    for (i, kind) in kinds.iter().enumerate() {
        out.push_str(separator(i, kinds.len()))?;
        out.push_str(word_of(words, *kind))?;
    }
    Ok(())
}

/// What a complaint says.
pub(crate) fn message_of(
    alloc: Global,
    entries: &[Entry],
    words: &[&str],
    complaint: Complaint,
) -> Result<String, Fault>
    ensures message { IfOk result (λ message.
        string_bytes message ≡ message_of entries.now words.now complaint) }
    ensures err { IfErr result (λ e. e ≡ Fault.Memory) }
{
    let Some(rule) = complaint.rule else {
        let message = String::from_str(alloc, "expected the end of the text")?;
        return Ok(message);
    };
    let mut message = String::from_str(alloc, "expected ")?;
    let kinds = members_of(alloc, fitting_set(entries, rule))?;
    push_words(&mut message, words, kinds.as_slice())?;
    Ok(message)
}
