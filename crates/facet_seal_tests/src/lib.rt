//! Tests of the check of a registry, of what no script can declare: drafts by calls, in tables.
#![tactic(auto)]

#[cfg(test)]
mod tests;
