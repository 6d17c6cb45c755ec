#![tactic(auto)]

// Worked days on both hosts, and the published vectors of the hash. Expected values were worked out apart from this code.
#[cfg(test)]
mod hashes;
#[cfg(test)]
mod replays;
#[cfg(test)]
mod simulations;
#[cfg(test)]
mod words;
