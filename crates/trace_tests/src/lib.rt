// Tests of rows, depths and traces: examples worked by hand, every cut of a trace, and generated
// bytes held against a second reader that shares nothing with the first.
#![tactic(auto)]

#[cfg(test)]
mod cuts;
#[cfg(test)]
mod generated;
#[cfg(test)]
mod readers;
#[cfg(test)]
mod rows;
mod second;
