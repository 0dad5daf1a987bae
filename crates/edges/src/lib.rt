// Tests at the edges of the rules: the smallest and the largest numbers, a full policy, layer over layer.
#![tactic(auto)]

#[cfg(test)]
mod policies;
#[cfg(test)]
mod runs;
