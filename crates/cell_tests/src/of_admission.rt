//! Tests of `admission`: worked loads, and what a budget has room for.

mod budgets;
mod calls;
mod waiting;
