//! A first monitor, to be copied: a pool of permits, over any `Monitor`.
#![tactic(auto)]

pub mod permits;
