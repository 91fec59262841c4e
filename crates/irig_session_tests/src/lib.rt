//! Sessions, tested by their public calls.
#![tactic(auto)]

#[cfg(test)]
mod sessions;
