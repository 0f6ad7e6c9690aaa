//! Tests alone: public calls of the lower crates with values that no document shows, run with ample memory against values from
//! outside.
#![tactic(auto)]

#[cfg(test)]
mod cache;
#[cfg(test)]
mod conditions;
#[cfg(test)]
mod edge;
#[cfg(test)]
mod facts;
#[cfg(test)]
mod histories;
#[cfg(test)]
mod lists;
#[cfg(test)]
mod locks;
#[cfg(test)]
mod names;
#[cfg(test)]
mod orders;
#[cfg(test)]
mod prints;
#[cfg(test)]
mod tags;
#[cfg(test)]
mod times;
