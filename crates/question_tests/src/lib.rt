// Tests of questions over several theories, a table of calls with their answers for each case.
#![tactic(auto)]

#[cfg(test)]
mod tests;
