//! Tests of lines, headers, encodings and parameters, by public calls alone. A crate of their own, so that nothing waits for them.
#![tactic(auto)]

#[cfg(test)]
mod calls;
#[cfg(test)]
mod codes;
#[cfg(test)]
mod decoding;
#[cfg(test)]
mod examples;
#[cfg(test)]
mod headers;
#[cfg(test)]
mod lines;
#[cfg(test)]
mod memory;
#[cfg(test)]
mod params;
#[cfg(test)]
mod piecewise;
#[cfg(test)]
mod rooms;
#[cfg(test)]
mod sizes;
#[cfg(test)]
mod types;
#[cfg(test)]
mod words;
