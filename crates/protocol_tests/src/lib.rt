//! Tests of the frames of a session, and of its replies as lines.
#![tactic(auto)]

#[cfg(test)]
mod answers;
#[cfg(test)]
mod framer;
#[cfg(test)]
mod refusals;
#[cfg(test)]
mod replies;
