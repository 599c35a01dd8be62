//! The version, as the program and the library print it after their name. This crate has no code,
//! so that a new version costs a new proof only of those who print it.
#![tactic(auto)]

/// The version, and the logic in which it was proved (as `rt version` names it).
pub const VERSION: &str = "0.1.0, proved with rattle logic dac8208d650f15bf";
