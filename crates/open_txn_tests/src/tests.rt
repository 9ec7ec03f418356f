//! Tests of drafts and of open transactions.

mod calls;
mod once;
mod run;
mod twice;
