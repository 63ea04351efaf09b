// The parts of messages.
pub mod access;
pub mod head;
pub mod numbers;
pub mod promise;
pub mod round;
pub mod state;
