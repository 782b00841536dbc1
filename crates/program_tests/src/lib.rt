//! Tests of the whole program: runs of `top` over files and sinks in memory. There is nothing else here.
#![tactic(auto)]

#[cfg(test)]
mod altered;
#[cfg(test)]
mod case;
#[cfg(test)]
mod content;
#[cfg(test)]
mod in_turns;
#[cfg(test)]
mod late;
#[cfg(test)]
mod packet;
#[cfg(test)]
mod process;
#[cfg(test)]
mod reported;
#[cfg(test)]
mod runs;
#[cfg(test)]
mod wait;
