//! Tests of one brick, of its server, and of all servers of a volume.
#![tactic(auto)]

#[cfg(test)]
mod server_tests;
#[cfg(test)]
mod servers_tests;
#[cfg(test)]
mod tests;
