//! Tests that compare compiled handlers with the interpreter over trees, message by message: against results worked out by
//! hand, and over long rows of messages. It has no code of its own.
#![tactic(auto)]

#[cfg(test)]
mod alike;
#[cfg(test)]
mod beside;
#[cfg(test)]
mod both;
#[cfg(test)]
mod chain;
#[cfg(test)]
mod messages;
#[cfg(test)]
mod parts;
#[cfg(test)]
mod protocols;
#[cfg(test)]
mod shown;
#[cfg(test)]
mod worked;
