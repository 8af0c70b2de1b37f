//! Tests of calls that no program reaches yet, and of calls that may answer want of memory: each is asked a few times,
//! and answers what it is asked where there is enough. Asked are copies of names, texts and shapes, devices of the
//! system and in memory, plans, edits, records and items, ties, layouts, the order of modules, what they export and what
//! USE gives, letters, rules for names, lists of shapes, operators and intrinsic functions,
//! constant expressions, and projects to test with. The crate has no code beside them.
#![tactic(auto)]

#[cfg(test)]
mod tests;
