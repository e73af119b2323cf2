//! Tests of the law, the book, lines of a text, scripts, job files, lists of jobs, and workers that wait for each other.

mod books;
mod compared;
mod gates;
mod job_files;
mod law;
mod lines;
mod lists;
mod scripts;
mod streams;
mod texts;
