//! The demo, run: its script goes through an engine line by line, as a script of files would, and a
//! summary of its replies is told.
//!
//! The one way in is `run_demo`. It knows no planner; the engine brings its own.
#![tactic(auto)]

mod demo;

pub use demo::run_demo;
