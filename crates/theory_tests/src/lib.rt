// Tests of the three theories through the theory interface, a table of steps for each case.
#![tactic(auto)]

#[cfg(test)]
mod tests;
