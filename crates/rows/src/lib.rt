// The six kinds of row that a run's tables hold: what each is told apart by, and its rank.
#![tactic(auto)]

mod known_binary;
mod laws;
mod named_lane;
mod named_process;
mod running_script;
mod running_test;
mod waiting_test;

pub use known_binary::KnownBinary;
pub use laws::laws_stand;
pub use named_lane::NamedLane;
pub use named_process::NamedProcess;
pub use running_script::RunningScript;
pub use running_test::RunningTest;
pub use waiting_test::WaitingTest;

// A test, by the number of its binary and its own.
#[derive(Clone, Copy, Debug, PartialEq, Eq)]
pub struct TestKey {
    pub binary: u32,
    pub test: u32,
}
