// Tests of flat stores and of braids: cases worked by hand, every refusal in its order, a pile of three, and
// generated piles held against a second account that shares nothing with the first.
#![tactic(auto)]

#[cfg(test)]
mod cases;
#[cfg(test)]
mod flats;
#[cfg(test)]
mod generated;
#[cfg(test)]
mod piles;
#[cfg(test)]
mod refusals;
#[cfg(test)]
mod second;
#[cfg(test)]
mod watching;
