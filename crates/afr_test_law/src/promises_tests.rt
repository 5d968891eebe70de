//! Samples of logs that keep the laws of durability, misses, availability and locks, and of logs that come near.
