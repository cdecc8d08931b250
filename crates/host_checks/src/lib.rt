// Examples of our host: a run of practice12 to its end, one to a combination, and the refusals.
// It promises nothing and has no code but its tests; a run against the card's session is the walkthrough's.
#![tactic(auto)]

#[cfg(test)]
mod tests;
