//! Tests of what stands at the edge of `agent_links`: connections over loopback, and sessions in memory.
#![tactic(auto)]

#[cfg(test)]
mod links;
#[cfg(test)]
mod loopback_tests;
#[cfg(test)]
mod memory_tests;
