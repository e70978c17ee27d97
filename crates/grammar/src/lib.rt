#![tactic(auto)]

// The shapes of drafts and their laws are in specs/: this crate has no code of its own.
fn nothing() {}
