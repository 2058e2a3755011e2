// Tests of the decoder: small cases worked by hand, what is left in the lent memory, and every refusal.
#![tactic(auto)]

#[cfg(test)]
mod cases;
#[cfg(test)]
mod refusals;
