// The card: begin, answer, open and give up, by value. A step is given the record and answers what came and the next record.
#![tactic(auto)]

pub mod answer;
pub mod begin;
pub mod give_up;
pub mod open;
