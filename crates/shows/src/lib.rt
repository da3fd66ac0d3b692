// What a show is: row cards, rows, zones, requests, answers and faults; the rules of its calls as relations, and
// the law that its history accounts for every telegram (docs/SHOW.md, docs/LAW.md).
#![tactic(auto)]

pub mod answer;
pub mod card;
pub mod fault;
pub mod law;
pub mod request;
pub mod row;
pub mod zone;
