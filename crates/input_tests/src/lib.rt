//! Tests of what is read, in a crate of their own. The library is empty.
#![tactic(auto)]

#[cfg(test)]
mod commands;
#[cfg(test)]
mod fragments;
#[cfg(test)]
mod ftp;
#[cfg(test)]
mod headers;
#[cfg(test)]
mod made;
#[cfg(test)]
mod rules;
#[cfg(test)]
mod text;
#[cfg(test)]
mod words;
