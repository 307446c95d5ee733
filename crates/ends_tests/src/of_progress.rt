//! Tests of the progress: its text, when it is drawn and wiped, and what passes through the ends that report to it.

mod drawing;
mod passing;
mod screen;
