//! The publication list, alone and in threads: tests over the public items of `pub_list`, with the states of
//! `pub_counter`.
#![tactic(auto)]

#[cfg(test)]
mod counting;
#[cfg(test)]
mod sleeping;
#[cfg(test)]
mod swapping;
#[cfg(test)]
mod walking;
