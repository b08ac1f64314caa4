//! Grammars, and the parser that each one is.
ghost use Rattle.rowan_predictive.specs.Predictive.{IsPredictive};
ghost use Rattle.rowan_predictive.specs.Costs.{IsBounded};
ghost use Rattle.rowan_predictive.specs.Props.{predictive_prop, bounded_prop};

use crate::rules::Entry;

/// Rules for which the next token alone says what to do, and what was found of them.
#[derive(Drop)]
pub struct Grammar {
    pub(crate) entries: Vec<Entry>,
    pub(crate) per_token: u32,
    ghost predictive: { IsPredictive entries.items } by { predictive_prop entries.items },
    ghost bounded: { IsBounded entries.items per_token } by { bounded_prop entries.items per_token },
}
