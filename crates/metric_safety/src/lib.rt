//! What no run of a safe plan can do: laws over all its legal histories, and over every window of an
//! instrument's recordings.
//!
//! `specs/SafeFacts.antt` says when the facts of an instrument are safe, `specs/WindowBounds.antt` what then
//! holds of a window, `specs/SafeRuns.antt` what holds of a history. The functions do nothing.
#![tactic(auto)]

pub mod laws;
