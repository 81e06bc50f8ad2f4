//! Tests of the inbox and the recipes over a folder in memory that others change.
#![tactic(auto)]

#[cfg(test)]
mod days;
#[cfg(test)]
mod drawn;
#[cfg(test)]
mod scripts;
