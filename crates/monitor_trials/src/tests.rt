//! Tests of the running doors (`doors`), and of the schedulers and recipes (`schedulers`).

mod awaited;
mod compared;
mod doors;
mod row;
mod schedulers;
