// Examples of operators: the actions of stored matrices and of nested pairs against sums made bit by
// bit, and the refusals. It promises nothing and has no code but its tests.
#![tactic(auto)]

#[cfg(test)]
mod tests;
