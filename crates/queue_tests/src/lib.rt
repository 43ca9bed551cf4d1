#![tactic(auto)]

// Examples of the queues and the price ranges, run as tests on every kind.
#[cfg(test)]
mod queues;
#[cfg(test)]
mod random;
#[cfg(test)]
mod ranges;
