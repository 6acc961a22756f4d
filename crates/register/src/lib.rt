// The register's end: the verdict over a sign-on.
#![tactic(auto)]

mod check;
pub mod decide;
mod grade;
