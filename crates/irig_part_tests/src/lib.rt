//! The crates below the session, tested by their public calls.
#![tactic(auto)]

#[cfg(test)]
mod codes;
#[cfg(test)]
mod dumps;
#[cfg(test)]
mod edges;
#[cfg(test)]
mod explanations;
#[cfg(test)]
mod gaps;
#[cfg(test)]
mod indexes;
#[cfg(test)]
mod journal_texts;
#[cfg(test)]
mod journals;
#[cfg(test)]
mod middles;
#[cfg(test)]
mod moments;
mod stack;
#[cfg(test)]
mod tracks;
