//! Tests of descriptions, definitions, shapes and the registry, by what their crates export.
#![tactic(auto)]

#[cfg(test)]
mod tests;
