//! Tests of what is read off a shape, by what `facet_outline` exports.
#![tactic(auto)]

#[cfg(test)]
mod tests;
