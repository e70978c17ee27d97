#![tactic(auto)]

// The theory is in specs/: this crate has no code of its own.
fn nothing() {}
