//! Tests of parsers and of the languages that stand on them: trees of events, lines, printed errors,
//! parsers from grammars, JSON, scripts, and wrappers that `rowan_grammar` wrote.
#![tactic(auto)]

#[cfg(test)]
mod arithmetic;
#[cfg(test)]
mod json;
#[cfg(test)]
mod lines;
#[cfg(test)]
mod parsed;
#[cfg(test)]
mod predictive;
#[cfg(test)]
mod rendering;
#[cfg(test)]
mod script;
#[cfg(test)]
mod trees;
#[cfg(test)]
mod wrappers;
