// Examples of making a Goppa polynomial: known results, all elements of a practice set, and the refusals.
// It promises nothing and has no code but its tests; the published elements are program vectors'.
#![tactic(auto)]

#[cfg(test)]
mod tests;
