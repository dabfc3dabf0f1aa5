//! Tests of whole scripts: what the program writes, byte for byte.
#![tactic(auto)]

#[cfg(test)]
mod collections;
#[cfg(test)]
mod crowds;
#[cfg(test)]
mod finaliser_rows;
#[cfg(test)]
mod generation_rows;
#[cfg(test)]
mod heap_rows;
#[cfg(test)]
mod paces;
#[cfg(test)]
mod runs;
#[cfg(test)]
mod tests;
#[cfg(test)]
mod thread_rows;
#[cfg(test)]
mod threads;
