//! Tests of the schedulers and of the recipes. Each runs on both doors, a thread for each place: `steps` says how such a
//! row is written. On the monitor for tests, of one thread, `fake` runs what no other place can bring about.

mod fake;
mod head;
mod plain;
mod readers;
mod recipes;
mod refusals;
mod steps;
mod timed;
